// What a line of the command program asks for.
#![tactic(auto)]

ghost use Rattle.std.specs.Prelude.{[], ◌∷◌, map, ◌≡◌};
ghost use Rattle.texts.specs.Fields.{number_in};
ghost use Rattle.commands.specs.Commands.{remove_order, query_order, Names, Means};

// A call whose answer gives no value. An event's identifier is the line's second field.
#[derive(Clone, Copy)]
pub enum Change {
    Event,
    Close,
    Remove(u32),
    Flush,
    Step,
}

// What a line asks for. A query's identifiers are the fields from the third on.
#[derive(Clone, Copy)]
pub enum Order {
    Open,
    Change(Change),
    Query(u32),
}

// The order of a letter alone.
fn single(letter: u8) -> Option<Order>
    ensures { Names letter [] result }
{
    match letter {
        b'O' => Some(Order::Open),
        b'C' => Some(Order::Change(Change::Close)),
        b'F' => Some(Order::Change(Change::Flush)),
        b'M' => Some(Order::Change(Change::Step)),
        _ => None,
    }
}

// A removal of the window that a field gives.
fn removal(field: &[u8]) -> Option<Order>
    ensures { result ≡ remove_order (number_in field.now) }
{
    let window = texts::read_number(field)?;
    Some(Order::Change(Change::Remove(window)))
}

// A query with as many places as a field gives.
fn asking(field: &[u8]) -> Option<Order>
    ensures { result ≡ query_order (number_in field.now) }
{
    let places = texts::read_number(field)?;
    Some(Order::Query(places))
}

// The order of a letter and one field.
fn double(letter: u8, field: &[u8]) -> Option<Order>
    ensures { Names letter (field.now ∷ []) result }
{
    match letter {
        b'E' => Some(Order::Change(Change::Event)),
        b'R' => removal(field),
        b'Q' => asking(field),
        _ => None,
    }
}

// The order of a line's fields, if they are one.
pub fn order_of(parts: &[&[u8]]) -> Option<Order>
    ensures { Means (map (λ x. x.now) parts.now) result }
{
    if parts.len() == 0 {
        return None;
    }
    let name = parts[0];
    if name.len() != 1 {
        return None;
    }
    let letter = name[0];
    if parts.len() == 1 {
        return single(letter);
    }
    let field = parts[1];
    if parts.len() == 2 {
        return double(letter, field);
    }
    if letter == b'Q' {
        return asking(field);
    }
    None
}
