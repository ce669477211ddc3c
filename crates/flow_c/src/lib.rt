// The four calls of document 01 and that of CR 7 for C and Rust (`include/nannyjiffy.h`). Each export is the call that it names: numbers
// pass as themselves, a slice as a pointer and a length. Single numbers that are lent hold answers and are written at every
// call, whatever it answers.
#![tactic(auto)]

ghost use Rattle.std.specs.Prelude.{◌≡◌, length};
ghost use Rattle.sheet.specs.Sheet.{loaded};
ghost use Rattle.call_definitions.specs.Calls.{start_call, look_call, handle_call};
ghost use Rattle.call_definitions.specs.Touches.{Bounded};
ghost use Rattle.receipt.specs.Receipts.{receipt_of};

use flow::answer::number;
use flow::{look, start, touch};
use receipt;
use rows;
use sheet;

// Loads a sheet into lent rows: 0, or the first ground of 1, 21 and 2 to 7.
#[unsafe(no_mangle)]
pub extern "C" fn nannyjiffy_load(sheet: &[u8], rows: &mut [i32]) -> u32
    ensures value { result ≡ (loaded sheet.now rows.old).0 }
    ensures rows_after { rows.new ≡ (loaded sheet.now rows.old).1 }
{
    number(&sheet::load(sheet, rows))
}

// Starts a flow in a lent state: 0, or the first ground of 20 and 21.
#[unsafe(no_mangle)]
pub extern "C" fn nannyjiffy_start(rows: &[i32], state: &mut [i32], strides: &mut u32) -> u32
    ensures value { result ≡ (start_call rows.now state.old).number }
    ensures strides_after { strides.new ≡ (start_call rows.now state.old).strides }
    ensures state_after { state.new ≡ (start_call rows.now state.old).state }
    ensures bounded { Bounded rows.now strides.new }
{
    let started = start::start(rows, state);
    *strides = started.unwrap_or(0);
    number(&started)
}

// Looks at a rest in a role: 0, or the first ground of 20 to 23, 8 for a role outside 1 to 8 (CR 6), and 24. `bytes` is the
// length of the part that 01 hands back, the front of the list; the contract has the whole list.
#[unsafe(no_mangle)]
pub extern "C" fn nannyjiffy_look(
    rows: &[i32],
    state: &[i32],
    role: u32,
    value: &mut [i32],
    list: &mut [u8],
    valued: &mut u32,
    fails: &mut u32,
    bytes: &mut usize,
) -> u32
    ensures value { result ≡ (look_call rows.now state.now role value.old list.old).number }
    ensures valued_after { valued.new ≡ (look_call rows.now state.now role value.old list.old).has_value }
    ensures fails_after { fails.new ≡ (look_call rows.now state.now role value.old list.old).fails }
    ensures bytes_after { bytes.new ≡ length (look_call rows.now state.now role value.old list.old).part }
    ensures value_after { value.new ≡ (look_call rows.now state.now role value.old list.old).value }
    ensures list_after { list.new ≡ (look_call rows.now state.now role value.old list.old).list }
{
    let seen = look::fill(rows, state, role, value, list);
    let shown = seen.unwrap_or_default();
    *valued = u32::from(shown.valued);
    *fails = u32::from(shown.fails);
    *bytes = shown.bytes;
    number(&seen)
}

// Handles an event: 0, or the first ground of 20 to 23, 8, 9, 30 and 31.
#[unsafe(no_mangle)]
pub extern "C" fn nannyjiffy_handle(
    rows: &[i32],
    state: &mut [i32],
    event: &[u8],
    strides: &mut u32,
) -> u32
    ensures value { result ≡ (handle_call rows.now state.old event.now).number }
    ensures strides_after { strides.new ≡ (handle_call rows.now state.old event.now).strides }
    ensures state_after { state.new ≡ (handle_call rows.now state.old event.now).state }
    ensures bounded { Bounded rows.now strides.new }
{
    let handled = touch::handle(rows, state, event);
    *strides = handled.unwrap_or(0);
    number(&handled)
}

// What an order comes to by a price list (CR 7): 0, or the first of 32, 33 and 34. `cents` is the total, 0 where one holds.
#[unsafe(no_mangle)]
pub extern "C" fn nannyjiffy_receipt(prices: &[u8], order: &[i32], cents: &mut u64) -> u32
    ensures value { result ≡ (receipt_of prices.now order.now).number }
    ensures cents_after { cents.new ≡ (receipt_of prices.now order.now).total }
{
    match receipt::total(prices, order) {
        Ok(total) => {
            *cents = total;
            0
        }
        Err(refusal) => {
            *cents = 0;
            u32::from(refusal)
        }
    }
}
