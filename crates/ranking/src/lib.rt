// The best hits, in their order, and whether a query may be asked for them.
#![tactic(auto)]

ghost use Rattle.std.specs.Prelude.{◌||◌, [], ◌∷◌, ◌++◌, map, ◌≡◌, ◌+◌, ◌-◌, ◌≤◌, ◌<◌, min, ltb, take, drop};
ghost use Rattle.ranking.specs.Hits.{outranks, place};
ghost use Rattle.ranking.specs.Top.{top_of, listed_hits, Held, rank};
ghost use Rattle.ranking.specs.Asked.{bad_query};

use answers::Hit;

// Places of a list of hits, at most.
pub const MOST_PLACES: usize = 32;

// The best hits so far, best first, and zeros after them.
#[derive(Clone, Copy)]
pub struct Top {
    pub used: u16,
    pub hits: [Hit; MOST_PLACES],
}

// No hits yet.
pub fn no_hits() -> Top
    ensures { result ≡ top_of [] }
{
    Top {
        used: 0,
        hits: [Hit {
            window: 0,
            score: 0,
        }; MOST_PLACES],
    }
}

// Whether `g` stands before `h`. Written out, since scores and windows both fall.
pub fn outranks(g: Hit, h: Hit) -> bool
    ensures { result ≡ outranks g h }
{
    (h.score < g.score) | ((h.score == g.score) & (h.window < g.window))
}

// How many hits stand before the first that `g` outranks.
fn rank_of(t: Top, g: Hit) -> usize
    requires { t.used ≤ 32 }
    ensures { result ≡ rank g (listed_hits t) }
{
    let used = t.used as usize;
    for i in 0..used {
        if outranks(g, t.hits[i]) {
            return i;
        }
    }
    used
}

// The place that an insertion overwrites: the first free one, and the last one of a full list.
fn last_place(used: u16, places: u16) -> usize
    requires { 1 ≤ places }
    ensures { result ≡ min used (places - 1) }
{
    if used < places {
        return used as usize;
    }
    (places - 1) as usize
}

// Puts `g` in before place `k`; the hits from there on move up by one, over place `last`.
fn insert_hit(t: Top, g: Hit, k: usize, last: usize) -> Top
    requires { (t ≡ top_of (listed_hits t)) × (k ≤ last) × (last ≤ t.used) × (t.used ≤ last + 1) × (last < 32) }
    ensures { result ≡ top_of (take (last + 1) (take k (listed_hits t) ++ g ∷ drop k (listed_hits t))) }
{
    let mut u = t;
    u.hits.copy_within(k..last, k + 1);
    u.hits[k] = g;
    u.used = last as u16 + 1;
    u
}

// Puts `g` in at its rank. Of a full list the last hit goes, and that is `g` where nothing ranks below it.
pub fn place_hit(t: Top, g: Hit, places: u16) -> Top
    requires { Held places t }
    ensures { result ≡ top_of (take places (place g (listed_hits t))) }
{
    let k = rank_of(t, g);
    let last = last_place(t.used, places);
    if last < k {
        return t;
    }
    insert_hit(t, g, k, last)
}

// Whether `g` gets a place: a list that is not full has one, and of a full one the last hit may have to go.
pub fn enters(used: u16, places: u16, g: Hit, last: Hit) -> bool
    ensures { result ≡ (ltb used places || outranks g last) }
{
    (used < places) | outranks(g, last)
}

// Whether the query has no identifier or more than 5, one of them twice, or no places or more than 32.
pub fn bad_query(ids: &[&[u8]], places: usize) -> bool
    ensures { result ≡ bad_query places (map (λ x. x.now) ids.now) }
{
    let count = ids.len();
    if 5 < count {
        return true;
    }
    let repeated = !identifiers::many::all_differ(ids);
    (count == 0) | (repeated | ((places == 0) | (MOST_PLACES < places)))
}
