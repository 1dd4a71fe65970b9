// The second pass of a query: window after window, from the highest at any head down.
ghost use mathlib.Core.List.{[], foldr};
ghost use Rattle.std.specs.Prelude.{◌≡◌, ◌≤◌, take as best};
ghost use Rattle.words.specs.Words.{words as words_of};
ghost use Rattle.state.specs.Shown.{shows_in};
ghost use Rattle.scores.specs.Terms.{terms_of};
ghost use Rattle.ranking.specs.Hits.{place};
ghost use Rattle.ranking.specs.Top.{top_of};
ghost use Rattle.queries.specs.Walks.{found_in, Walkable};

use answers::Hit;
use ranking::Top;

// The best hits of the windows of g terms of m lists each. `current` is the open window's number, or 0: it is passed over, and so are windows outside the stretch
// from `first` to `last`.
pub fn walk(
    card: &[u8],
    run: &[u32],
    heads: &mut [u32],
    g: usize,
    m: usize,
    places: u16,
    current: u32,
    first: u32,
    last: u32,
) -> Top
    requires { Walkable (words_of card.now) run.now m g heads.old × (1 ≤ places) × (places ≤ 32) }
    ensures { result ≡ top_of (best places (foldr place [] (found_in (shows_in (record { first = first; last = last }) current) (terms_of (words_of card.now) run.now m g heads.old)))) }
{
    let mut best = ranking::no_hits();
    let mut top = scores::scoring::top_terms(card, run, heads, g, m);
    // by falling window, whichever term has it: no index is counted
    while 0 < top {
        let w = top - 1;
        let t = scores::scoring::take_terms(card, run, heads, g, m, w);
        let counts = t.counts & (((first <= w) & (w <= last)) & (w != current));
        if counts {
            let hit = Hit {
                window: w as u16,
                score: t.score,
            };
            let at = (places - 1) as usize;
            let lowest = best.hits[at];
            if ranking::enters(best.used, places, hit, lowest) {
                best = ranking::place_hit(best, hit, places);
            }
        }
        top = t.next;
    }
    best
}
