ghost use Rattle.std.specs.Prelude.{IfOk, IsSome};

use md_outer::{Begin, Depot, Failed, Fetch, FileDepot, FreeGate, Gate, OutSink, Sink};
use std::alloc::Global;
use std::fs;
use std::test::Fail;

/// Begins a file and appends a piece, by the bound alone.
fn write_file<D: Depot>(alloc: Global, depot: &mut D, name: &str, piece: &[u8]) -> Result<u32, Fail>
    ensures { IfOk result (λ number. IsSome ((D.state depot.new).begun number)) }
{
    let number = depot.begin(alloc, name)?;
    match depot.append(number, piece) {
        Ok(()) => Ok(number),
        Err(failed) => Err(Fail::from(failed)),
    }
}

/// Whether a piece is appended; the file stays begun.
fn is_appended<D: Depot>(depot: &mut D, number: u32, piece: &[u8]) -> bool
    requires { IsSome ((D.state depot.old).begun number) }
    ensures { IsSome ((D.state depot.new).begun number) }
{
    depot.append(number, piece).is_ok()
}

/// A file's name, the limit of a fetch, and what it gives.
type Row<'a> = (&'a str, u64, Result<&'a [u8], Fetch>);

/// Whether a fetch gives what its row says.
fn is_fetched<D: Depot>(alloc: Global, depot: &mut D, row: &Row) -> bool {
    let (name, limit, want) = *row;
    match (depot.fetch(alloc, name, limit), want) {
        (Ok(bytes), Ok(want)) => bytes.as_slice() == want,
        (Err(fault), Err(want)) => fault == want,
        _ => false,
    }
}

/// The first of the rows, each as far as the ones before it have gone, whose fetch gives something else.
fn first_invalid<D: Depot>(alloc: Global, depot: &mut D, rows: &[Row]) -> Option<usize> {
    for (number, row) in rows.iter().enumerate() {
        if !is_fetched(alloc, depot, row) {
            return Some(number);
        }
    }
    None
}

/// Puts two pieces, by the bound alone.
fn put_both<S: Sink>(sink: &mut S, first: &[u8], second: &[u8]) -> Result<(), Failed> {
    sink.put(first)?;
    sink.put(second)
}

#[test]
fn a_real_file_is_written_and_fetched(rt: HostRuntime) -> Result<(), Fail> {
    let rows: [Row; 3] = [
        ("depot_test.bin", 4, Ok(&[1, 2, 3, 4])),
        ("depot_test.bin", 3, Err(Fetch::TooLong)),
        ("depot_test.none", 9, Err(Fetch::Failed)),
    ];
    let alloc = rt.alloc();
    let mut depot = FileDepot::new(rt, alloc);
    let number = write_file(alloc, &mut depot, "depot_test.bin", &[1, 2, 3])?;
    assert!(rt; is_appended(&mut depot, number, &[4]));
    assert_eq!(rt; first_invalid(alloc, &mut depot, &rows), None);
    let nowhere = depot.begin(alloc, "depot_test.none/file");
    assert!(rt; nowhere == Err(Begin::Failed), "no such folder");
    fs::remove_file(&rt, "depot_test.bin")?;
    Ok(())
}

#[test]
fn a_real_file_is_begun_again(rt: HostRuntime) -> Result<(), Fail> {
    let alloc = rt.alloc();
    let long = vec![in alloc; 0xa5; 5000]?;
    let rows: [Row; 2] = [
        ("depot_test.long", 5000, Ok(long.as_slice())),
        ("depot_test.long", 4999, Err(Fetch::TooLong)),
    ];
    let mut depot = FileDepot::new(rt, alloc);
    let number = write_file(alloc, &mut depot, "depot_test.long", &[1, 2, 3])?;
    let again = write_file(alloc, &mut depot, "depot_test.long", &long)?;
    assert!(rt; again == number);
    assert_eq!(rt; first_invalid(alloc, &mut depot, &rows), None);
    fs::remove_file(&rt, "depot_test.long")?;
    Ok(())
}

#[test]
fn standard_output_takes_pieces(rt: HostRuntime) -> Result<(), Fail> {
    put_both(&mut OutSink::new(rt), b"a piece ", b"and its end\n")?;
    FreeGate.pass(0, 0);
    Ok(())
}
