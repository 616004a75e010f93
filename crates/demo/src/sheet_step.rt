// Prints the run sheet of the built-in row: case S of document 01.
use sheet::run_sheet;
use std::io;

// 2 by 1 cells, the vertical edges of plane 0; then the two words.
const CASE_S: [u8; 16] = [
    0x00, 0x08, 0x00, 0x10, 0x00, 0x00, 0x00, 0x00, 0x11, 0x56, 0x00, 0x00, 0x11, 0x56, 0x00, 0x00,
];

pub(crate) fn print_sheet(rt: &impl Print) -> io::Result<()> {
    println!(rt; "its run sheet: edge, first position, positions, size, level")?;
    let mut text = [0; 2048];
    if let Some(count) = run_sheet(&CASE_S, &mut text) {
        rt.write_all(&text[..count])?;
    }
    Ok(())
}
