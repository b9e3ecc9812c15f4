ghost use Rattle.std.specs.Prelude.{◌≡◌, string_bytes, IfOk, OnOk};
ghost use Rattle.serde_json.specs.Data.{number, unsigned};
ghost use Rattle.serde_json.specs.Data.{put as with_member};
ghost use Rattle.serde_json.specs.View.{members_view, view};
ghost use Rattle.debug_text.specs.Report as reports;

use md_word::{NoMemory, Regs};
use serde_json::{Map, Value, put};
use std::alloc::Global;

/// Gives an object a key with a number. It fails only when memory runs out.
fn put_number(
    alloc: Global,
    object: &mut Map<String, Value>,
    key: &str,
    value: u64,
) -> Result<(), NoMemory>
    ensures { OnOk result (members_view object.new.entries ≡ with_member key.now (number (unsigned value)) (members_view object.old.entries)) }
{
    put(object, alloc, key, Value::from(value))
}

/// Gives an object the address registers, of which A7 is the active stack pointer. It fails only when memory
/// runs out.
fn put_addresses(
    alloc: Global,
    object: &mut Map<String, Value>,
    regs: &Regs,
) -> Result<(), NoMemory>
    ensures { OnOk result (members_view object.new.entries ≡ reports.with_addresses regs.now (members_view object.old.entries)) }
{
    put_number(alloc, object, "a0", u64::from(regs.a[0]))?;
    put_number(alloc, object, "a1", u64::from(regs.a[1]))?;
    put_number(alloc, object, "a2", u64::from(regs.a[2]))?;
    put_number(alloc, object, "a3", u64::from(regs.a[3]))?;
    put_number(alloc, object, "a4", u64::from(regs.a[4]))?;
    put_number(alloc, object, "a5", u64::from(regs.a[5]))?;
    put_number(alloc, object, "a6", u64::from(regs.a[6]))?;
    put_number(alloc, object, "a7", u64::from(regs.address(7)))?;
    Ok(())
}

/// Gives an object the data registers. It fails only when memory runs out.
fn put_data(alloc: Global, object: &mut Map<String, Value>, regs: &Regs) -> Result<(), NoMemory>
    ensures { OnOk result (members_view object.new.entries ≡ reports.with_data regs.now (members_view object.old.entries)) }
{
    put_number(alloc, object, "d0", u64::from(regs.d[0]))?;
    put_number(alloc, object, "d1", u64::from(regs.d[1]))?;
    put_number(alloc, object, "d2", u64::from(regs.d[2]))?;
    put_number(alloc, object, "d3", u64::from(regs.d[3]))?;
    put_number(alloc, object, "d4", u64::from(regs.d[4]))?;
    put_number(alloc, object, "d5", u64::from(regs.d[5]))?;
    put_number(alloc, object, "d6", u64::from(regs.d[6]))?;
    put_number(alloc, object, "d7", u64::from(regs.d[7]))?;
    Ok(())
}

/// The cycle of the next event and the registers of the 68000 as an object of JSON. It fails only when memory
/// runs out.
fn report_value(alloc: Global, cycle: u64, regs: &Regs) -> Result<Value, NoMemory>
    ensures { IfOk result (λ value. view value ≡ reports.report cycle regs.now) }
{
    let mut object = Map::new(alloc);
    put_addresses(alloc, &mut object, regs)?;
    put_number(alloc, &mut object, "at", cycle)?;
    put_data(alloc, &mut object, regs)?;
    put_number(alloc, &mut object, "pc", u64::from(regs.pc))?;
    put_number(alloc, &mut object, "sr", u64::from(regs.sr))?;
    Ok(Value::Object(object))
}

/// The reply with the cycle of the next event and the registers of the 68000 as JSON, on one line: the keys in
/// the order of their bytes, the numbers in decimal. It fails only when memory runs out.
pub fn report_reply(alloc: Global, cycle: u64, regs: &Regs) -> Result<String, NoMemory>
    ensures { IfOk result (λ text. string_bytes text ≡ reports.report_reply cycle regs.now) }
{
    let mut text = report_value(alloc, cycle, regs)?.to_string(alloc)?;
    text.push_str("\n")?;
    Ok(text)
}
