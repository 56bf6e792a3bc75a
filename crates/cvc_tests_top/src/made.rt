//! Netlists that are too long to be written out.

use std::alloc::{AllocError, Global};

/// Cells of one port, each of which but the first has one instance of the one before it, of this name. The first has the given cards.
pub(super) fn chain_of_cells(
    alloc: Global,
    cells: u32,
    cards: &[u8],
    instance: &[u8],
) -> Result<Vec<u8>, AllocError> {
    let mut netlist = Vec::from_slice(alloc, b".SUBCKT c0 p\n")?;
    netlist.extend_from_slice(cards)?;
    netlist.extend_from_slice(b".ENDS\n")?;
    for below in 0..cells.saturating_sub(1) {
        let head = format!(in alloc; ".SUBCKT c{} p\n", below + 1)?;
        netlist.extend_from_slice(head.as_bytes())?;
        netlist.extend_from_slice(instance)?;
        let tail = format!(in alloc; " p c{below}\n.ENDS\n")?;
        netlist.extend_from_slice(tail.as_bytes())?;
    }
    Ok(netlist)
}

/// Such a chain around one resistor.
pub(super) fn nested_cells(alloc: Global, cells: u32) -> Result<Vec<u8>, AllocError> {
    chain_of_cells(alloc, cells, b"R1 p VSS 1\n", b"X1")
}

/// Cells, each of which has two instances of the one before it. The first is empty.
pub(super) fn doubled_cells(alloc: Global, cells: u32) -> Result<Vec<u8>, AllocError> {
    let mut netlist = Vec::from_slice(alloc, b".SUBCKT c0 p\n.ENDS\n")?;
    for below in 0..cells.saturating_sub(1) {
        let cell = format!(in alloc;
            ".SUBCKT c{} p\nX1 p c{}\nX2 p c{}\n.ENDS\n",
            below + 1,
            below,
            below
        )?;
        netlist.extend_from_slice(cell.as_bytes())?;
    }
    Ok(netlist)
}

/// Lines that differ in a number alone, from the first to before the end: it stands behind each of these parts but the last.
pub(super) fn numbered_lines(
    alloc: Global,
    first: u32,
    end: u32,
    parts: &[&[u8]],
) -> Result<Vec<u8>, AllocError> {
    let mut lines = Vec::new(alloc);
    for i in first..end {
        let number = format!(in alloc; "{i}")?;
        for (k, part) in parts.iter().enumerate() {
            if k > 0 {
                lines.extend_from_slice(number.as_bytes())?;
            }
            lines.extend_from_slice(part)?;
        }
    }
    Ok(lines)
}

/// One text behind another.
pub(super) fn joined(alloc: Global, texts: &[&[u8]]) -> Result<Vec<u8>, AllocError> {
    let mut all = Vec::new(alloc);
    for text in texts {
        all.extend_from_slice(text)?;
    }
    Ok(all)
}

/// A line with a byte that no netlist has, and then 200,000 bytes of comment lines.
pub(super) fn bad_byte_and_comments(alloc: Global) -> Result<Vec<u8>, AllocError> {
    let comments = numbered_lines(alloc, 0, 20_000, &[b"* comment\n"])?;
    joined(alloc, &[b"R\x01 a b 1\n", &comments])
}
