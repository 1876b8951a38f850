//! Pairs of gathers run one after another, for one record and for records side by side.

ghost use Rattle.std.specs.Prelude.{◌≡◌, ◌+◌, ◌*◌, ◌≤◌, ◌<◌, ◌∷◌, [], ℕ, length};
ghost use Rattle.std.specs.List.{All};
ghost use Rattle.evp_plan.specs.Cells.{painted_at, painted_each, gathered_at, gathered_each};
ghost use Rattle.evp_plan.specs.Pairs.{in_pairs, pair_cells};

use crate::Series;
use crate::gather::{Both, Gathers, Pair};
use crate::running::run_gathers;
use evp_wide::{gather_two, gather_with_signs};

// Makes sixteen bytes of the record at t from two windows of the sender's at `at`.
#[inline(always)]
fn run_pair(pair: &Pair, out: &mut [u8], t: usize, from: &[u8], at: usize)
    requires window { at + pair.now.one.at + 16 ≤ length from.now }
    requires other_window { at + pair.now.two.at + 16 ≤ length from.now }
    requires room { t + pair.now.one.to + 16 ≤ length out.old }
    ensures { out.new ≡ painted_at from.now at (t + pair.now.one.to) (pair_cells pair.now) out.old }
{
    let to = t + pair.one.to as usize;
    let first = at + pair.one.at as usize;
    let second = at + pair.two.at as usize;
    let (mask, other) = (&pair.one.blend.mask, &pair.two.blend.mask);
    if pair.two.signed {
        gather_with_signs(out, to, from, first, mask, second, other);
        return;
    }
    gather_two(out, to, from, first, mask, second, other);
}

// Runs two pairs one after the other.
#[inline(always)]
pub(crate) fn run_both(both: &Both, out: &mut [u8], t: usize, from: &[u8], at: usize)
    requires first { (at + both.now.one.one.at + 16 ≤ length from.now)
        × ((at + both.now.one.two.at + 16 ≤ length from.now)
        × (t + both.now.one.one.to + 16 ≤ length out.old)) }
    requires second { (at + both.now.two.one.at + 16 ≤ length from.now)
        × ((at + both.now.two.two.at + 16 ≤ length from.now)
        × (t + both.now.two.one.to + 16 ≤ length out.old)) }
    ensures { out.new ≡ gathered_at from.now at t
        (in_pairs (both.now.one ∷ both.now.two ∷ [])) out.old }
{
    run_pair(&both.one, out, t, from, at);
    run_pair(&both.two, out, t, from, at);
}

// Runs pairs one after another.
#[inline(always)]
pub(crate) fn run_pairs(pairs: &[Pair], out: &mut [u8], t: usize, from: &[u8], at: usize)
    requires { All (λ pair. (at + pair.one.at + 16 ≤ length from.now)
        × ((at + pair.two.at + 16 ≤ length from.now)
        × (t + pair.one.to + 16 ≤ length out.old))) pairs.now }
    ensures { out.new ≡ gathered_at from.now at t (in_pairs pairs.now) out.old }
{
    for pair in pairs {
        run_pair(pair, out, t, from, at);
    }
}

// Runs what stands behind the plain gathers of a record. Apart from its callers, which hold what most
// records have.
#[inline(never)]
pub(crate) fn run_behind(gathers: &Gathers, out: &mut [u8], t: usize, from: &[u8], at: usize)
    requires pairs { All (λ pair. (at + pair.one.at + 16 ≤ length from.now)
        × ((at + pair.two.at + 16 ≤ length from.now)
        × (t + pair.one.to + 16 ≤ length out.old))) gathers.now.pairs.items }
    requires mixed { All (λ gather. (at + gather.at + 16 ≤ length from.now)
        × (t + gather.to + 16 ≤ length out.old)) gathers.now.mixed.items }
    ensures { out.new ≡ gathered_at from.now at t gathers.now.mixed.items
        (gathered_at from.now at t (in_pairs gathers.now.pairs.items) out.old) }
{
    run_pairs(gathers.pairs.as_slice(), out, t, from, at);
    run_gathers(gathers.mixed.as_slice(), false, out, t, from, at);
}

// Makes sixteen bytes of n records of `out`, each from two windows of one of the sender's records.
// It has a pair of its own, which no write to `out` asks it to read again.
#[inline(always)]
fn run_pair_each(pair: Pair, out: &mut [u8], to: Series, from: &[u8], at: Series, n: usize)
    requires window { (k : ℕ) → k < n → (at.first + k * at.apart + pair.one.at + 16 ≤ length from.now)
        × (at.first + k * at.apart + pair.two.at + 16 ≤ length from.now) }
    requires room { (k : ℕ) → k < n
        → to.first + k * to.apart + pair.one.to + 16 ≤ length out.old }
    ensures { out.new ≡ painted_each from.now at.first at.apart (to.first + pair.one.to) to.apart
        n (pair_cells pair) out.old }
{
    for k in 0..n {
        let t = to.first + k * to.apart;
        run_pair(&pair, out, t, from, at.first + k * at.apart);
    }
}

// Runs pairs one after another, each for all of the records, none of which reaches into the next.
#[inline(always)]
pub(crate) fn run_pairs_each(
    pairs: &[Pair],
    out: &mut [u8],
    to: Series,
    from: &[u8],
    at: Series,
    n: usize,
)
    requires window { All (λ pair. (k : ℕ) → k < n
        → (at.first + k * at.apart + pair.one.at + 16 ≤ length from.now)
        × (at.first + k * at.apart + pair.two.at + 16 ≤ length from.now)) pairs.now }
    requires room { All (λ pair. (pair.one.to + 16 ≤ to.apart) × ((k : ℕ) → k < n
        → to.first + k * to.apart + pair.one.to + 16 ≤ length out.old)) pairs.now }
    ensures { out.new ≡ gathered_each from.now at.first at.apart to.first to.apart n
        (in_pairs pairs.now) out.old }
{
    for pair in pairs {
        run_pair_each(*pair, out, to, from, at, n);
    }
}
