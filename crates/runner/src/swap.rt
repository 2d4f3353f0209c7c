// SWAP over all lanes: three rows of masks, made in one loop; then the stores to vc and vd; then, where a lane has bit 2 set, the exchange of
// the registers 4 + vc mod 4 and 4 + vd mod 4; then all of them are counted by those masks.
ghost use Rattle.std.specs.Prelude.{◌≡◌, ◌+◌, ◌<◌, ◌≤◌, Bool, false, ◌&&◌, ◌||◌, length, ◌≢◌, slice_index};
ghost use Rattle.lane.specs.Words.{bit, enabled, flag_of, reg, register_stores};
ghost use Rattle.lane.specs.Swap as Rules;
ghost use Rattle.runner.specs.Image.{lane_in};
ghost use Rattle.runner.specs.PrivateRows as Rows;
ghost use Rattle.runner.specs.PrivateSteps as Steps;
ghost use Rattle.runner.specs.PrivateSwap as Swaps;

use crate::rows::{full, masked, may_act, put, source, word_at};
use crate::tables::Tables;
use crate::ties::count_ties;
use crate::traffic::count_marked;
use crate::{Image, Tally};
use lane::Insn;
use lane::swap::{compared, in_mask, is_below, mask_in};
use lane::words::LANE_CONFIG;

// The mask of whether a lane swaps, by masks where lane's `swaps` goes by truth values, from its mask of being enabled: `always` under mod 0, `free` of bit 4 for vd
// below 12.
fn swap_mask(go: u32, always: bool, free: bool, minimum: bool, config: u32, c: u32, d: u32) -> u32
    ensures { (e : Bool) → go ≡ Rows.full e → result ≡ Rows.full (((free || bit config 4) && e) && Rules.swaps always minimum (bit config 8) c d) }
{
    let order = minimum == is_below(compared(c, d));
    let swapping = always | ((config / 256 % 2 == 1) != order);
    go & full(may_act(free, config) & swapping)
}

// The rows of masks after the first, the lanes that are enabled: the lanes that swap; of those, the lanes with bit 2 clear; and those with it set. Whether
// any lane exchanges the index registers is returned: whether the union of the last has a bit.
fn swap_masks(
    image: &Image,
    always: bool,
    free: bool,
    mask: u32,
    c: &[u32; 32],
    d: &[u32; 32],
    t: &mut [u32],
) -> bool
    requires { Rows.Enabled t.old image.now }
    ensures { (t.new ≡ Swaps.mask_rows (λ L. enabled (lane_in image.now L)) (λ L. Swaps.swaps_by always free mask L (slice_index c.now L) (slice_index d.now L) (lane_in image.now L)) (λ L. bit (lane_in image.now L 12) 2)) × (result ≡ false → Swaps.NoIndex t.new) }
{
    let mut seen: u32 = 0;
    for n in 0..32 {
        let config = word_at(image, LANE_CONFIG, n);
        let on = swap_mask(
            t[n],
            always,
            free,
            in_mask(mask, n as u8),
            config,
            c[n],
            d[n],
        );
        let index = on & full(config / 4 % 2 == 1);
        t[32 + n] = on;
        t[64 + n] = on ^ index;
        t[96 + n] = index;
        seen = seen | index;
    }
    seen != 0
}

// The same for an instruction. Each call but the last has constants for the tests, so that each has a loop of its own once compiled.
fn masks_of(
    image: &Image,
    i: Insn,
    tables: &Tables,
    c: &[u32; 32],
    d: &[u32; 32],
    t: &mut [u32],
) -> bool
    requires { Rows.Enabled t.old image.now }
    ensures { (t.new ≡ Swaps.swap_rows i c.now d.now image.now) × (result ≡ false → Swaps.NoIndex t.new) }
{
    if i.vd < 12 {
        if i.md == 0 {
            swap_masks(image, true, true, 0, c, d, t)
        } else {
            swap_masks(image, false, true, mask_in(&tables.masks, i.md), c, d, t)
        }
    } else {
        swap_masks(
            image,
            i.md == 0,
            false,
            mask_in(&tables.masks, i.md),
            c,
            d,
            t,
        )
    }
}

// Two different registers exchanged in place: q's word to p under the masks from `a` on, and p's to q under those from `b` on. Both words are
// chosen before the first store, so that the second reads nothing again.
fn exchange(image: &mut Image, p: usize, q: usize, t: &[u32; 128], a: usize, b: usize)
    requires masks { Rows.Masks 128 t.now }
    requires differ { p ≢ q }
    requires p { p < 24 }
    requires q { q < 24 }
    requires a { a ≤ 96 }
    requires b { b ≤ 96 }
    ensures { image.new ≡ Rows.storing image.old (λ L. Swaps.exchanged p q (Rows.marked t.now (a + L)) (Rows.marked t.now (b + L)) (lane_in image.old L)) }
{
    for n in 0..32 {
        let x = word_at(image, p, n);
        let y = word_at(image, q, n);
        put(image, p, n, 0xFFFFFFFF, masked(t[a + n], y, x));
        put(image, q, n, 0xFFFFFFFF, masked(t[b + n], x, y));
    }
}

// A row stored to register p under the masks from `a` on.
fn store_part(image: &mut Image, p: usize, t: &[u32; 128], a: usize, words: &[u32; 32])
    requires masks { Rows.Masks 128 t.now }
    requires p { p < 24 }
    requires a { a ≤ 96 }
    ensures { image.new ≡ Rows.storing image.old (λ L. Swaps.stored_under p (Rows.marked t.now (a + L)) (slice_index words.now L)) }
{
    for n in 0..32 {
        put(image, p, n, t[a + n], words[n]);
    }
}

// Where the masks of a store to register r begin: below 4 every lane that swaps makes it, from 4 on those with bit 2 clear.
fn masks_at(r: u32) -> usize
    ensures { (result ≤ 96) × (result ≡ Swaps.masks_at r) }
{
    if r < 4 { 32 } else { 64 }
}

// The stores to vc and vd, whose rows are `c` and `d`, each only below 8.
fn store_both(image: &mut Image, i: Insn, c: &[u32; 32], d: &[u32; 32], t: &[u32; 128])
    requires differ { i.vc ≢ i.vd }
    requires masks { Rows.Masks 128 t.now }
    requires c { c.now ≡ Rows.row (λ L. reg L (lane_in image.old L) i.vc) }
    requires d { d.now ≡ Rows.row (λ L. reg L (lane_in image.old L) i.vd) }
    ensures { image.new ≡ Rows.storing image.old (λ L. Swaps.stored_both i.vc i.vd t.now L (lane_in image.old L)) }
{
    if i.vc < 8 {
        if i.vd < 8 {
            exchange(
                image,
                i.vc as usize,
                i.vd as usize,
                t,
                masks_at(i.vc),
                masks_at(i.vd),
            );
        } else {
            store_part(image, i.vc as usize, t, masks_at(i.vc), d);
        }
    } else if i.vd < 8 {
        store_part(image, i.vd as usize, t, masks_at(i.vd), c);
    }
}

// How many stores a swap makes to register r, only below 8.
fn count_to(r: u32, t: &[u32; 128], stores: &mut [u32])
    requires masks { Rows.Masks 128 t.now }
    requires stores { Steps.Room 4 stores.old }
    ensures { stores.new ≡ Steps.counted stores.old (Swaps.count_to r t.now) }
{
    if r < 8 {
        count_marked(t, masks_at(r), 1, stores);
    }
}

// The two stores of each exchange of the index registers, of which there are none where none was seen.
fn count_exchanges(t: &[u32; 128], seen: bool, stores: &mut [u32])
    requires masks { Rows.Masks 128 t.now }
    requires seen { seen ≡ false → Swaps.NoIndex t.now }
    requires stores { Steps.Room 8 stores.old }
    ensures { stores.new ≡ Steps.counted stores.old (Swaps.count_exchanged t.now) }
{
    if seen {
        count_marked(t, 96, 2, stores);
    }
}

// The stores of a swap, by its rows of masks.
fn count_swaps(i: Insn, t: &[u32; 128], seen: bool, stores: &mut [u32])
    requires masks { Rows.Masks 128 t.now }
    requires seen { seen ≡ false → Swaps.NoIndex t.now }
    requires stores { Steps.Room 24 stores.old }
    ensures { stores.new ≡ Steps.counted stores.old (Swaps.swap_count i t.now) }
{
    count_exchanges(t, seen, stores);
    count_to(i.vc, t, stores);
    count_to(i.vd, t, stores);
}

// The stores to vc and vd, then the exchange of the index registers, where any was seen. A register with itself is left as it is.
fn store_swaps(image: &mut Image, i: Insn, c: &[u32; 32], d: &[u32; 32], t: &[u32; 128], seen: bool)
    requires rows { t.now ≡ Swaps.swap_rows i c.now d.now image.old }
    requires seen { seen ≡ false → Swaps.NoIndex t.now }
    requires c { c.now ≡ Rows.row (λ L. reg L (lane_in image.old L) i.vc) }
    requires d { d.now ≡ Rows.row (λ L. reg L (lane_in image.old L) i.vd) }
    ensures { image.new ≡ Rows.storing image.old (λ L. Rules.swap i L (lane_in image.old L)) }
{
    if i.vc == i.vd {
        return;
    }
    store_both(image, i, c, d, t);
    let p = (4 + i.vc % 4) as usize;
    let q = (4 + i.vd % 4) as usize;
    let exchanges = (p != q) & seen;
    if exchanges {
        exchange(image, p, q, t, 96, 96);
    }
}

// SWAP over all lanes. `t` are the run's rows of masks: the first stays, and the other three are written. Ties are counted first, from the rows as they were; a
// register with itself is one in every lane that acts, and its stores are counted, though nothing is stored.
pub(crate) fn swap(
    image: &mut Image,
    i: Insn,
    t: &mut [u32; 128],
    tables: &Tables,
    counts: &mut Tally,
)
    requires enabled { Rows.Enabled t.old image.old }
    requires ties { Steps.Room 4 counts.old.ties }
    requires stores { Steps.Room 24 counts.old.stores }
    ensures { (image.new ≡ Rows.storing image.old (λ L. Rules.swap i L (lane_in image.old L))) × (Rows.Enabled t.new image.new × ((counts.new.ties ≡ Steps.counted counts.old.ties (λ L. flag_of (Rules.tied i L (lane_in image.old L)))) × (counts.new.stores ≡ Steps.counted counts.old.stores (λ L. register_stores (Rules.swap i L (lane_in image.old L)))))) }
{
    let c = source(image, tables, i.vc);
    let d = source(image, tables, i.vd);
    count_ties(image, i, t, &c, &d, &mut counts.ties);
    let seen = masks_of(image, i, tables, &c, &d, t);
    store_swaps(image, i, &c, &d, t, seen);
    count_swaps(i, t, seen, &mut counts.stores);
}
