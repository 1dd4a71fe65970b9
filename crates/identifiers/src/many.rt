// Several identifiers: whether one of them is empty or too long, and whether they differ.
ghost use Rattle.std.specs.Prelude.{[], map, ◌≡◌, ◌<◌, length, get_or, take};
ghost use Rattle.lists.specs.Lists.{any};
ghost use Rattle.identifiers.specs.Names.{bad_length, among, distinct};

// Whether an identifier is empty or too long.
pub fn any_bad(ids: &[&[u8]]) -> bool
    ensures { result ≡ any bad_length (map (λ x. x.now) ids.now) }
{
    ids.iter().any(|id| super::bad_length(*id))
}

// Whether the identifier at place i stands before it.
fn repeats(ids: &[&[u8]], i: usize) -> bool
    requires { i < length ids.now }
    ensures { result ≡ among (get_or (map (λ x. x.now) ids.now) i []) (take i (map (λ x. x.now) ids.now)) }
{
    let id = ids[i];
    ids[..i].iter().any(|other| super::equal(*other, id))
}

// Whether no identifier is there twice.
pub fn all_differ(ids: &[&[u8]]) -> bool
    ensures { result ≡ distinct (map (λ x. x.now) ids.now) }
{
    for i in 0..ids.len() {
        if repeats(ids, i) {
            return false;
        }
    }
    true
}
