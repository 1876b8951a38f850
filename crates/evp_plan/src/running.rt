//! Gathers run one after another, for one record and for records side by side.

ghost use Rattle.std.specs.Prelude.{◌≡◌, ◌+◌, ◌*◌, ◌^◌, ◌≤◌, ◌<◌, ◌∷◌, [], ℕ, true, length, drop};
ghost use Rattle.std.specs.List.{All};
ghost use Rattle.evp_plan.specs.Cells.{painted_at, painted_each, lanes, written, gather_cells};
ghost use Rattle.evp_plan.specs.Cells.{gathered_at, gathered_each};
ghost use Rattle.evp_plan.specs.Fours.{in_fours};

use crate::Series;
use crate::gather::{Four, Gather, Two};
use evp_wide::{gather_blend, gather_signs};

// Makes sixteen bytes from `to` on, of the window that begins at `at`, by a plain gather.
#[inline(always)]
fn run_plain(gather: &Gather, out: &mut [u8], to: usize, from: &[u8], at: usize)
    requires plain { gather.now.plain ≡ true }
    requires window { at + 16 ≤ length from.now }
    requires room { to + 16 ≤ length out.old }
    ensures made { out.new ≡ written (lanes gather.now.signed gather.now.blend.mask.places
        (drop at from.now)) gather.now.blend to out.old }
    ensures bytes { All (λ byte. byte < 256) out.new }
{
    evp_wide::gather(out, to, from, at, &gather.blend.mask);
}

// Makes 64 bytes of the record at t from the sender's at `at`. All places follow from the first.
#[inline(always)]
fn run_four(four: &Four, out: &mut [u8], t: usize, from: &[u8], at: usize)
    requires window { at + four.now.one.at + 64 ≤ length from.now }
    requires room { t + four.now.one.to + 64 ≤ length out.old }
    requires bytes { All (λ byte. byte < 256) out.old }
    ensures { out.new ≡ gathered_at from.now at t (four.now.one ∷ four.now.two ∷ four.now.three
        ∷ four.now.four ∷ []) out.old }
{
    let to = t + four.one.to as usize;
    let at = at + four.one.at as usize;
    run_plain(&four.one, out, to, from, at);
    run_plain(&four.two, out, to + 16, from, at + 16);
    run_plain(&four.three, out, to + 32, from, at + 32);
    run_plain(&four.four, out, to + 48, from, at + 48);
}

// Runs gathers one after another, four at a time.
#[inline(always)]
pub(crate) fn run_in_fours(fours: &[Four], out: &mut [u8], t: usize, from: &[u8], at: usize)
    requires { All (λ four. (at + four.one.at + 64 ≤ length from.now)
        × (t + four.one.to + 64 ≤ length out.old)) fours.now }
    ensures { out.new ≡ gathered_at from.now at t (in_fours fours.now) out.old }
{
    for four in fours {
        run_four(four, out, t, from, at);
    }
}

// Runs two gathers one after the other.
#[inline(always)]
pub(crate) fn run_two(two: &Two, out: &mut [u8], t: usize, from: &[u8], at: usize)
    requires first { (at + two.now.one.at + 16 ≤ length from.now)
        × (t + two.now.one.to + 16 ≤ length out.old) }
    requires second { (at + two.now.two.at + 16 ≤ length from.now)
        × (t + two.now.two.to + 16 ≤ length out.old) }
    requires bytes { All (λ byte. byte < 256) out.old }
    ensures { out.new ≡ gathered_at from.now at t (two.now.one ∷ two.now.two ∷ []) out.old }
{
    run_plain(
        &two.one,
        out,
        t + two.one.to as usize,
        from,
        at + two.one.at as usize,
    );
    run_plain(
        &two.two,
        out,
        t + two.two.to as usize,
        from,
        at + two.two.at as usize,
    );
}

// Makes sixteen bytes of the record at t from the sender's at `at`. Whether the gather is plain may
// be told, so that a loop over plain ones doesn't test it.
#[inline(always)]
fn run_gather(gather: &Gather, plain: bool, out: &mut [u8], t: usize, from: &[u8], at: usize)
    requires plain { plain ≡ true → gather.now.plain ≡ true }
    requires window { at + gather.now.at + 16 ≤ length from.now }
    requires room { t + gather.now.to + 16 ≤ length out.old }
    ensures { out.new ≡ written (lanes gather.now.signed gather.now.blend.mask.places
        (drop (at + gather.now.at) from.now)) gather.now.blend (t + gather.now.to) out.old }
{
    let to = t + gather.to as usize;
    let at = at + gather.at as usize;
    if plain {
        evp_wide::gather(out, to, from, at, &gather.blend.mask);
        return;
    }
    if gather.signed {
        gather_signs(out, to, from, at, &gather.blend);
        return;
    }
    gather_blend(out, to, from, at, &gather.blend);
}

// Runs gathers one after another.
#[inline(always)]
pub(crate) fn run_gathers(
    gathers: &[Gather],
    plain: bool,
    out: &mut [u8],
    t: usize,
    from: &[u8],
    at: usize,
)
    requires plain { plain ≡ true → All (λ gather. gather.plain ≡ true) gathers.now }
    requires within { All (λ gather. (at + gather.at + 16 ≤ length from.now)
        × (t + gather.to + 16 ≤ length out.old)) gathers.now }
    ensures { out.new ≡ gathered_at from.now at t gathers.now out.old }
{
    for gather in gathers {
        run_gather(gather, plain, out, t, from, at);
    }
}

// Runs plain gathers one after another, apart from its callers.
#[inline(never)]
pub(crate) fn run_rest(gathers: &[Gather], out: &mut [u8], t: usize, from: &[u8], at: usize)
    requires plain { All (λ gather. gather.plain ≡ true) gathers.now }
    requires within { All (λ gather. (at + gather.at + 16 ≤ length from.now)
        × (t + gather.to + 16 ≤ length out.old)) gathers.now }
    ensures { out.new ≡ gathered_at from.now at t gathers.now out.old }
{
    run_gathers(gathers, true, out, t, from, at);
}

// Makes sixteen bytes of record k of `out`, from that of the sender's.
#[inline(always)]
fn run_record(
    gather: &Gather,
    plain: bool,
    out: &mut [u8],
    to: Series,
    from: &[u8],
    at: Series,
    k: usize,
)
    requires plain { plain ≡ true → gather.now.plain ≡ true }
    requires window { at.first + k * at.apart + gather.now.at + 16 ≤ length from.now }
    requires room { to.first + k * to.apart + gather.now.to + 16 ≤ length out.old }
    requires bytes { All (λ byte. byte < 256) out.old }
    ensures made { out.new ≡ painted_at from.now (at.first + k * at.apart)
        (to.first + k * to.apart + gather.now.to) (gather_cells gather.now) out.old }
    ensures bytes { All (λ byte. byte < 256) out.new }
{
    run_gather(
        gather,
        plain,
        out,
        to.first + k * to.apart,
        from,
        at.first + k * at.apart,
    );
}

// Makes sixteen bytes of each of so many times four records: four to a turn, so that the loop itself
// takes little.
#[inline(always)]
fn run_fours(
    gather: &Gather,
    plain: bool,
    out: &mut [u8],
    to: Series,
    from: &[u8],
    at: Series,
    fours: usize,
)
    requires plain { plain ≡ true → gather.now.plain ≡ true }
    requires window { (k : ℕ) → k < fours * 4
        → at.first + k * at.apart + gather.now.at + 16 ≤ length from.now }
    requires room { (k : ℕ) → k < fours * 4
        → to.first + k * to.apart + gather.now.to + 16 ≤ length out.old }
    requires few { fours * 4 < 2 ^ 64 }
    ensures { out.new ≡ painted_each from.now at.first at.apart (to.first + gather.now.to)
        to.apart (fours * 4) (gather_cells gather.now) out.old }
{
    for four in 0..fours {
        run_record(gather, plain, out, to, from, at, four * 4);
        run_record(gather, plain, out, to, from, at, four * 4 + 1);
        run_record(gather, plain, out, to, from, at, four * 4 + 2);
        run_record(gather, plain, out, to, from, at, four * 4 + 3);
    }
}

// Makes sixteen bytes of n records of `out`, each from one of the sender's records. It has a gather
// of its own, which no write to `out` asks it to read again.
#[inline(always)]
fn run_gather_each(
    gather: Gather,
    plain: bool,
    out: &mut [u8],
    to: Series,
    from: &[u8],
    at: Series,
    n: usize,
)
    requires plain { plain ≡ true → gather.plain ≡ true }
    requires window { (k : ℕ) → k < n
        → at.first + k * at.apart + gather.at + 16 ≤ length from.now }
    requires room { (k : ℕ) → k < n
        → to.first + k * to.apart + gather.to + 16 ≤ length out.old }
    ensures { out.new ≡ painted_each from.now at.first at.apart (to.first + gather.to) to.apart
        n (gather_cells gather) out.old }
{
    let fours = n / 4;
    run_fours(&gather, plain, out, to, from, at, fours);
    for k in fours * 4..n {
        run_record(&gather, plain, out, to, from, at, k);
    }
}

// Runs gathers one after another, each for all of the records.
#[inline(always)]
pub(crate) fn run_gathers_each(
    gathers: &[Gather],
    plain: bool,
    out: &mut [u8],
    to: Series,
    from: &[u8],
    at: Series,
    n: usize,
)
    requires plain { plain ≡ true → All (λ gather. gather.plain ≡ true) gathers.now }
    requires window { All (λ gather. (k : ℕ) → k < n
        → at.first + k * at.apart + gather.at + 16 ≤ length from.now) gathers.now }
    requires room { All (λ gather. (k : ℕ) → k < n
        → to.first + k * to.apart + gather.to + 16 ≤ length out.old) gathers.now }
    ensures { out.new ≡ gathered_each from.now at.first at.apart to.first to.apart n gathers.now
        out.old }
{
    for gather in gathers {
        run_gather_each(*gather, plain, out, to, from, at, n);
    }
}
