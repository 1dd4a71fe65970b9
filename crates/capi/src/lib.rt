// The engine's functions for callers in C and Rust: numbers and byte slices alone. A state is lent as its byte image.
#![tactic(auto)]

ghost use Rattle.std.specs.Prelude.{true, cond, ◌&&◌, map, ◌≡◌, ◌*◌, ◌≤◌, length};
ghost use Rattle.answers.specs.Answers.{done, leave, answer_of, carry};
ghost use Rattle.answers.specs.Numbers.{replied};
ghost use Rattle.identifiers.specs.Register.{register_rule};
ghost use Rattle.state.specs.Rules.{register_length};
ghost use Rattle.windows.specs.Promises.{Gives, store_of};
ghost use Rattle.ranking.specs.Top.{listed_hits};
ghost use Rattle.batches.specs.Batch.{remove_all_of};
ghost use Rattle.images.specs.Images.{image_rule};
ghost use Rattle.capi.specs.Exports.{carded_of, lent_of, imaged_store, start_on, unstarted_on, open_on, close_on, event_on, flush_on, remove_on, remove_all_on, step_on};
ghost use Rattle.numbers.specs.Images.{state_on, replied_by, opened_by, number_for, told_by};
ghost use Rattle.capi.specs.Queries.{hit_bytes, Tells, query_on, mean_on, forecast_on};

use answers::Refusal;
use postings::Stretch;
use ranking::Top;

// Is a register well formed? 1 where it is; 0 where it is not, or has no length within the limits.
#[unsafe(no_mangle)]
pub extern "C" fn gemsilver_register_ok(register: &[u8]) -> u8
    ensures { result ≡ cond (register_length (length register.now) && register_rule register.now) 1 0 }
{
    if !state::register_length_ok(register.len()) {
        return 0;
    }
    if registers::register_ok(register) {
        1
    } else {
        0
    }
}

// A fresh card and register, and the image of their state.
#[unsafe(no_mangle)]
pub extern "C" fn gemsilver_start(image: &mut [u8], card: &mut [u8], register: &mut [u8]) -> u32
    ensures { Gives (unstarted_on (lent_of image.old card.old register.old))
        (start_on (lent_of image.old card.old register.old))
        (replied_by result) (lent_of image.new card.new register.new) }
{
    if image.len() != images::BYTES {
        return 1;
    }
    let r = windows::start(card, register);
    images::write_state(image, r.state);
    numbers::reply_number(r.answer)
}

// A window is opened: its number, or 65,536 more than a refusal's.
#[unsafe(no_mangle)]
pub extern "C" fn gemsilver_open(image: &mut [u8]) -> u32
    ensures { Gives image.old (open_on image.old) (opened_by result) image.new }
{
    if !images::image_ok(image) {
        return 65537;
    }
    let s = images::read_state(image);
    let r = windows::open(s);
    numbers::settle_open(image, r)
}

// The open window is closed.
#[unsafe(no_mangle)]
pub extern "C" fn gemsilver_close(image: &mut [u8]) -> u32
    ensures { Gives image.old (close_on image.old) (replied_by result) image.new }
{
    if !images::image_ok(image) {
        return 1;
    }
    let s = images::read_state(image);
    let r = windows::close(s);
    numbers::settle(image, r)
}

// An event is counted.
#[unsafe(no_mangle)]
pub extern "C" fn gemsilver_event(
    image: &mut [u8],
    card: &mut [u8],
    register: &mut [u8],
    id: &[u8],
) -> u32
    ensures { Gives (lent_of image.old card.old register.old)
        (event_on (lent_of image.old card.old register.old) id.now)
        (replied_by result) (lent_of image.new card.new register.new) }
{
    if !images::image_ok(image) {
        return 1;
    }
    let s = images::read_state(image);
    let r = events::event(s, card, register, id);
    numbers::settle(image, r)
}

// The buffered postings are written.
#[unsafe(no_mangle)]
pub extern "C" fn gemsilver_flush(image: &mut [u8], card: &mut [u8]) -> u32
    ensures { Gives (carded_of image.old card.old) (flush_on (carded_of image.old card.old))
        (replied_by result) (carded_of image.new card.new) }
{
    if !images::image_ok(image) {
        return 1;
    }
    let s = images::read_state(image);
    let r = flushes::flush(s, card);
    numbers::settle(image, r)
}

// The hits into lent bytes, two words each.
fn put_hits(hits: &mut [u8], t: Top)
    requires { (t.used ≤ 32) × (8 * t.used ≤ length hits.old) }
    ensures { (hits.new ≡ hit_bytes hits.old (listed_hits t)) × (length t.hits ≡ 32) }
{
    for i in 0..t.used as usize {
        let h = t.hits[i];
        words::put_word(hits, 2 * i, h.window as u32);
        words::put_word(hits, 2 * i + 1, h.score);
    }
}

// The windows from `first` to `last` that match best, in the lent bytes. A refusal's number, or 256 times how many there are and 65,536 times the postings taken.
#[unsafe(no_mangle)]
pub extern "C" fn gemsilver_query(
    image: &[u8],
    card: &[u8],
    register: &[u8],
    ids: &[&[u8]],
    first: u16,
    last: u16,
    hits: &mut [u8],
) -> u64
    ensures { Tells hits.old (query_on (lent_of image.now card.now register.now) (record { first = first; last = last }) (map (λ x. x.now) ids.now) hits.old)
        result hits.new }
{
    if !images::image_ok(image) {
        return 1;
    }
    let s = images::read_state(image);
    let t = Stretch { first, last };
    let r = queries::search(s, card, register, ids, t, hits.len() / 8);
    put_hits(hits, r.top);
    numbers::found_number(r.answer)
}

// The mean count of an identifier. A refusal's number, or 65,536 times how many windows count, 65,536² times the remainder and 65,536³ times the quotient.
#[unsafe(no_mangle)]
pub extern "C" fn gemsilver_mean(image: &[u8], card: &[u8], register: &[u8], id: &[u8]) -> u64
    ensures { result ≡ number_for (answer_of (mean_on (lent_of image.now card.now register.now) id.now)) }
{
    if !images::image_ok(image) {
        return 1;
    }
    let s = images::read_state(image);
    let answer = means::mean(s, card, register, id);
    numbers::mean_number(answer)
}

// What a plan would come to, in six lent numbers: flushes, blocks, register entries, and window, event and number of the refusal that it stops at. 0, or a refusal's
// number, which leaves the lent numbers as they were.
#[unsafe(no_mangle)]
pub extern "C" fn gemsilver_forecast(
    image: &[u8],
    register: &[u8],
    plan: &[u8],
    counts: &[u32],
    told: &mut [u64; 6],
) -> u32
    ensures { (result ≡ number_for (answer_of (forecast_on image.now register.now plan.now counts.now)))
        × (told.new ≡ told_by (answer_of (forecast_on image.now register.now plan.now counts.now)) told.old) }
{
    if !images::image_ok(image) {
        return 1;
    }
    let s = images::read_state(image);
    let answer = forecasts::forecast(s, register, plan, counts);
    numbers::settle_forecast(told, answer)
}

// A window is removed.
#[unsafe(no_mangle)]
pub extern "C" fn gemsilver_remove(image: &mut [u8], card: &mut [u8], window: u32) -> u32
    ensures { Gives (carded_of image.old card.old) (remove_on (carded_of image.old card.old) window)
        (replied_by result) (carded_of image.new card.new) }
{
    if !images::image_ok(image) {
        return 1;
    }
    let s = images::read_state(image);
    let r = removals::remove(s, card, window);
    numbers::settle(image, r)
}

// What the removal of several windows together answers. The state that is read for it is gone before the removals are made, so that not both lie on the
// stack.
fn judge_list(image: &[u8], card: &[u8], windows: &[u32]) -> Result<(), Refusal>
    requires { image_rule image.now ≡ true }
    ensures { replied result ≡ answer_of (remove_all_of (store_of (state_on image.now) card.now) windows.now) }
{
    let s = images::read_state(image);
    batches::judge(s, card, windows)
}

// Removes several windows together, where that is not refused.
fn remove_list(image: &mut [u8], card: &mut [u8], windows: &[u32])
    requires { (image_rule image.old ≡ true) × (answer_of (remove_all_of (store_of (state_on image.old) card.old) windows.now) ≡ done) }
    ensures { carry imaged_store (remove_all_of (store_of (state_on image.old) card.old) windows.now)
        ≡ leave done (carded_of image.new card.new) }
{
    let s = images::read_state(image);
    let t = batches::remove_each(s, card, windows);
    images::write_state(image, t);
}

// Several windows are removed together, or none.
#[unsafe(no_mangle)]
pub extern "C" fn gemsilver_remove_all(image: &mut [u8], card: &mut [u8], windows: &[u32]) -> u32
    ensures { Gives (carded_of image.old card.old) (remove_all_on (carded_of image.old card.old) windows.now)
        (replied_by result) (carded_of image.new card.new) }
{
    if !images::image_ok(image) {
        return 1;
    }
    if let Err(why) = judge_list(image, card, windows) {
        return u32::from(why);
    }
    remove_list(image, card, windows);
    0
}

// A merge is taken one step further, or begun.
#[unsafe(no_mangle)]
pub extern "C" fn gemsilver_step(image: &mut [u8], card: &mut [u8]) -> u32
    ensures { Gives (carded_of image.old card.old) (step_on (carded_of image.old card.old))
        (replied_by result) (carded_of image.new card.new) }
{
    if !images::image_ok(image) {
        return 1;
    }
    let s = images::read_state(image);
    let r = merges::step(s, card);
    numbers::settle(image, r)
}
