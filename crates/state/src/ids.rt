// The open window's identifiers.
ghost use Rattle.std.specs.Prelude.{◌≡◌, [], ◌∷◌, ◌++◌, ◌<◌, ◌≤◌, drop};
ghost use Rattle.lists.specs.Lists.{elem};
ghost use Rattle.state.specs.Views.{listed, listed_of};

use super::Listed;

// Whether the identifier is listed at a place from `from` on.
pub fn found_from(l: Listed, from: usize, id: u16) -> bool
    requires { l.used ≤ 64 }
    ensures { result ≡ elem id (drop from (listed l)) }
{
    l.listed().iter().skip(from).any(|x| *x == id)
}

// Whether the identifier is listed.
pub fn is_listed(l: Listed, id: u16) -> bool
    requires { l.used ≤ 64 }
    ensures { result ≡ elem id (listed l) }
{
    l.listed().contains(&id)
}

// The identifier listed after the others.
pub fn list_id(l: Listed, id: u16) -> Listed
    requires { (l.used < 64) × (l ≡ listed_of (listed l)) }
    ensures { result ≡ listed_of (listed l ++ (id ∷ [])) }
{
    let mut t = l;
    let n = l.used as usize;
    t.ids[n] = id;
    t.used = l.used + 1;
    t
}
