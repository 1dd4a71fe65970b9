// One list leads: as long as no other list has the key, its head alone is looked at.
ghost use Rattle.std.specs.Prelude.{◌≡◌, map, ◌*◌, ◌≤◌, ◌<◌, length};
ghost use Rattle.std.specs.Int.Signed.{mag};
ghost use Rattle.lists.specs.All.{AllOf};
ghost use Rattle.keyed.specs.Keys.{rest, topmost_from, head_vals, heads_fine};
ghost use Rattle.kway.specs.Leads.{Leads};
ghost use Rattle.kway.specs.Parts.{parts};

use crate::{Lead, Led, Source};

// The list that leads. The promise is over the source, which is not read.
pub fn leader<S: Source>(source: &S, heads: &[u32], n: usize) -> Lead
    requires { (S.WIDTH * n ≤ length heads.now) × (n ≤ 512) × AllOf (S.kept source.now) (parts S.WIDTH n heads.now) }
    ensures { (result.top ≡ topmost_from 0 (map (S.view source.now) (parts S.WIDTH n heads.now)))
        × Leads (map (S.view source.now) (parts S.WIDTH n heads.now)) result.at result.others }
{
    let mut top: u32 = 0;
    let mut at: u32 = 0;
    let mut others: u32 = 0;
    for j in 0..n {
        let reach = heads[S::width() * j];
        if reach < top {
            others = others.max(reach);
        } else {
            others = top;
            top = reach;
            at = j as u32;
        }
    }
    Lead { top, at, others }
}

// Takes the heads that have the key: that of the list that leads alone where no other has it.
pub fn take_led<S: Source>(
    source: &S,
    heads: &mut [u32],
    n: usize,
    at: u32,
    others: u32,
    key: u32,
) -> Led
    requires { (S.WIDTH * n ≤ length heads.old) × (n ≤ 512) × (key < 4294967295) × AllOf (S.kept source.now) (parts S.WIDTH n heads.old)
        × Leads (map (S.view source.now) (parts S.WIDTH n heads.old)) at others }
    ensures heads { (length heads.new ≡ length heads.old)
        × AllOf (S.kept source.now) (parts S.WIDTH n heads.new)
        × (map (S.view source.now) (parts S.WIDTH n heads.new)
        ≡ map (rest key) (map (S.view source.now) (parts S.WIDTH n heads.old))) }
    ensures taken { (result.sum ≡ head_vals key (map (S.view source.now) (parts S.WIDTH n heads.old)))
        × (result.fine ≡ heads_fine key (map (S.view source.now) (parts S.WIDTH n heads.old)))
        × (result.next ≡ topmost_from 0 (map (S.view source.now) (parts S.WIDTH n heads.new)))
        × (mag result.sum ≤ 32768 * n) }
    ensures lead { Leads (map (S.view source.now) (parts S.WIDTH n heads.new)) result.at result.others }
{
    let place = at as usize;
    if (place < n) & (others <= key) {
        let from = S::width() * place;
        let t = source.took(&mut heads[from..from + S::width()], key);
        return Led {
            sum: t.count as i32,
            fine: t.fine,
            next: others.max(t.reach),
            at,
            others,
        };
    }
    let t = crate::take(source, heads, n, key);
    let l = leader(source, heads, n);
    Led {
        sum: t.sum,
        fine: t.fine,
        next: l.top,
        at: l.at,
        others: l.others,
    }
}
