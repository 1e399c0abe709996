// Workloads on the records of cells on a page.
use im_records::{CELLS_ON_A_PAGE, PAGE, put_cell, read_cell};
use im_types::layout::CELL_RECORD;
use im_types::{Block, CellRecord, Kind, MAX_CELLS, PresenceTag};

// Makes a page of full cells of one block.
fn full_page() -> [u8; PAGE] {
    let mut page = [0; PAGE];
    let block = Block {
        base: 0,
        length: MAX_CELLS,
        kind: Kind::I,
    };
    for place in 0..CELLS_ON_A_PAGE {
        let tag = PresenceTag::Full(place as u64);
        put_cell(&mut page, place, Some(CellRecord::Held { block, tag }));
    }
    page
}

fn digest(cell: Option<CellRecord>) -> u64 {
    match cell {
        Some(
            CellRecord::Held {
                tag: PresenceTag::Full(value),
                ..
            },
        ) => value,
        _ => 1_000,
    }
}

/// Reads the record of the next cell of a page of full cells, round and round, `count` times.
pub fn read(count: u32) -> u64 {
    let page = full_page();
    let mut sum = 0u64;
    for index in 0..count as usize {
        let at = index % CELLS_ON_A_PAGE * CELL_RECORD;
        sum = sum.wrapping_add(digest(read_cell(&page[at..at + CELL_RECORD])));
    }
    sum
}
