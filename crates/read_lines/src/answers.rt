//! What each line is.
use crate::receipts::{MAX_LINE, receipt_of};
use act_codec::{decode, encode};
use act_json::{LineFault, read_item};
use act_model::Receipt;
use anyhow::{Result, bail};
use std::alloc::Global;
use std::io::{self, BufWriter, Write};

pub(crate) fn print(rt: &(impl Print + AllocGlobal), lines: &[String]) -> Result<()> {
    let mut output = BufWriter::new(rt.alloc(), io::writer(rt))?;
    for line in lines {
        print_line(&mut output, rt.alloc(), line.as_bytes())?;
    }
    output.flush()?;
    Ok(())
}

fn print_line<W: Write>(output: &mut W, alloc: Global, line: &[u8]) -> Result<()> {
    if line.len() > MAX_LINE {
        writeln!(output, "malformed length")?;
        return Ok(());
    }
    match read_item(alloc, line) {
        Ok(_) => output.write_all(b"item")?,
        Err(fault) => print_fault(output, fault)?,
    }
    output.write_all(b"\t")?;
    match receipt_of(alloc, line) {
        Ok(receipt) => {
            output.write_all(b"item ")?;
            let bytes = encode(alloc, &receipt)?;
            print_bytes(output, &bytes)?;
            check(&receipt, &bytes)?;
        }
        Err(fault) => print_fault(output, fault)?,
    }
    output.write_all(b"\n")?;
    Ok(())
}

fn print_fault<W: Write>(output: &mut W, fault: LineFault) -> Result<()> {
    match fault {
        LineFault::NotJson => output.write_all(b"malformed json")?,
        LineFault::NotItem(path) => {
            output.write_all(b"malformed ")?;
            output.write_all(path.text())?;
        }
        LineFault::Memory => bail!("no memory"),
    }
    Ok(())
}

fn print_bytes<W: Write>(output: &mut W, bytes: &[u8]) -> Result<()> {
    for byte in bytes {
        write!(output, "{byte:02x}")?;
    }
    Ok(())
}

/// Ends the program where the bytes do not read as the receipt.
fn check(receipt: &Receipt, bytes: &[u8]) -> Result<()> {
    match decode(bytes) {
        Some(again) if is_same(&again, receipt) => Ok(()),
        _ => bail!("a receipt is not read again"),
    }
}

fn is_same(a: &Receipt, b: &Receipt) -> bool {
    a.stamp == b.stamp && a.sender == b.sender && a.reference == b.reference && a.item == b.item
}
