// What a C program links: the functions of `transomrib` under their own names, as include/transomrib.h declares them.
// Kept: each says again what it calls, since an export for C is a function with a contract of its own.
#![tactic(auto)]

ghost use Rattle.std.specs.Prelude.{◌≡◌};
ghost use Rattle.bank.specs.Meaning.{rows_of};
ghost use Rattle.stage.specs.Meaning.{bridge};
ghost use Rattle.transomrib.specs.Meaning.{replied, replied_of, named_of};

use bank::{Bank, Lists};
use filter::Filter;
use transomrib::Reply;

// One record of `input`, as `stage::take` takes it.
// Ruled out: the record not looked at; a refusal or a drop without its number.
#[unsafe(no_mangle)]
pub extern "C" fn transomrib_take(
    table: &mut [Filter],
    bank: &mut Bank,
    lists: &mut Lists,
    input: &[u8],
) -> Reply
    ensures { replied table.new (rows_of bank.new) lists.new result ≡ replied_of (bridge table.old (rows_of bank.old) lists.old) input.now }
{
    transomrib::transomrib_take(table, bank, lists, input)
}

// One counter, or a flag as 0 or 1: `what` names it, `index` says whose.
// Ruled out: the name and the index taken for each other; that of the first object for every index.
#[unsafe(no_mangle)]
pub extern "C" fn transomrib_read(bank: &Bank, what: u32, index: u32) -> u64
    ensures { result ≡ named_of (rows_of bank.now) what index }
{
    transomrib::transomrib_read(bank, what, index)
}
