mod crowd;
mod one_place;
