// Answers as numbers, and the state that a call leaves put back into its image.
#![tactic(auto)]

ghost use Rattle.std.specs.Prelude.{◌≡◌, length};
ghost use Rattle.answers.specs.Numbers.{replied, opened_as, averaged_as, forecast_as};
ghost use Rattle.numbers.specs.Images.{replied_by, opened_by, left_on, number_for, number_found, told_by};

use answers::{Forecast, Found, Mean, Refusal};
use windows::After;

// The number of an answer that gives no value.
pub fn reply_number(answer: Result<(), Refusal>) -> u32
    ensures { replied_by result ≡ replied answer }
{
    match answer {
        Err(why) => u32::from(why),
        Ok(()) => 0,
    }
}

// The number of an answer, with the image put back where the call is done.
pub fn settle(image: &mut [u8], after: After<()>) -> u32
    requires { length image.old ≡ 2864 }
    ensures { (replied_by result ≡ replied after.answer) × (image.new ≡ left_on (replied after.answer) after.state image.old) }
{
    match after.answer {
        Err(why) => u32::from(why),
        Ok(()) => {
            images::write_state(image, after.state);
            0
        }
    }
}

// The same for an open.
pub fn settle_open(image: &mut [u8], after: After<u16>) -> u32
    requires { length image.old ≡ 2864 }
    ensures { (opened_by result ≡ opened_as after.answer) × (image.new ≡ left_on (opened_as after.answer) after.state image.old) }
{
    match after.answer {
        Err(why) => 65536 + u32::from(why),
        Ok(n) => {
            images::write_state(image, after.state);
            n as u32
        }
    }
}

// The number of a query's answer.
pub fn found_number(answer: Result<Found, Refusal>) -> u64
    ensures { result ≡ number_found answer }
{
    match answer {
        Err(why) => u32::from(why) as u64,
        Ok(f) => 256 * f.hits as u64 + 65536 * f.taken as u64,
    }
}

// The number of a mean's answer.
pub fn mean_number(answer: Result<Mean, Refusal>) -> u64
    ensures { result ≡ number_for (averaged_as answer) }
{
    match answer {
        Err(why) => u32::from(why) as u64,
        Ok(m) => {
            65536 * m.windows as u64
                + 4294967296 * m.remainder as u64
                + 281474976710656 * m.quotient as u64
        }
    }
}

// What a forecast tells, as six numbers.
fn put_course(told: &mut [u64; 6], f: Forecast)
    ensures { told.new ≡ told_by (forecast_as (Ok f)) told.old }
{
    *told = match f.stop {
        None => [f.flushes as u64, f.blocks, f.entries as u64, 0, 0, 0],
        Some(t) => [
            f.flushes as u64,
            f.blocks,
            f.entries as u64,
            t.window,
            t.event as u64,
            u32::from(t.why) as u64,
        ],
    };
}

// The number of a forecast's answer, with what it tells put into the lent numbers where it is no refusal.
pub fn settle_forecast(told: &mut [u64; 6], answer: Result<Forecast, Refusal>) -> u32
    ensures { (result ≡ number_for (forecast_as answer)) × (told.new ≡ told_by (forecast_as answer) told.old) }
{
    match answer {
        Err(why) => u32::from(why),
        Ok(f) => {
            put_course(told, f);
            0
        }
    }
}
