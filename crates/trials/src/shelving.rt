// Shelves: counts, refusals, home for what is no value, and the block that a write closes.
use image::check::image_check;
use image::fresh::new_image;
use image::shelf::BlockShelf;
use shelves::numbered::Numbered;
use shelves::shelf::{PastCount, Shelf};
use shelves::table::Table;
use std::test::Fail;
use values::kind::Kind;
use values::level::{Level, Levels};
use values::timing::{TimingNumbers, Timings};

#[test]
fn a_table_reads_other_numbers_as_home(rt: HostRuntime) {
    let good = TimingNumbers {
        up: 36_000,
        down: 1,
        wait: 2,
        link: 2,
    };
    let mut lines = [
        good,
        TimingNumbers {
            up: 36_001,
            down: 0,
            wait: 0,
            link: 0,
        },
        TimingNumbers {
            up: 0,
            down: 0,
            wait: 0,
            link: 3,
        },
    ];
    let table: Table<Timings> = Table { lines: &mut lines };
    assert_eq!(rt; table.count(), 3);
    assert_eq!(rt; table.read(0), Some(Timings::of_numbers(good)));
    assert_eq!(rt; table.read(1), Some(Timings::home()));
    assert_eq!(rt; table.read(2), Some(Timings::home()));
    assert_eq!(rt; table.read(3), None);
}

#[test]
fn the_layer_leaves_row_0(rt: HostRuntime) {
    let mut lines = [1u16, 2, 3];
    let table: Table<Levels> = Table { lines: &mut lines };
    let mut layer = Numbered { below: table };
    assert_eq!(rt; layer.count(), 2);
    assert_eq!(rt; layer.read(0), Some(Level { value: 2 }));
    assert_eq!(rt; layer.write(1, Level { value: 9 }), Ok(()));
    assert_eq!(rt; layer.write(2, Level { value: 9 }), Err(PastCount));
    assert_eq!(rt; layer.below.read(0), Some(Level { value: 1 }));
    assert_eq!(rt; layer.below.read(2), Some(Level { value: 9 }));
}

#[test]
fn the_layer_over_nothing_is_empty(rt: HostRuntime) {
    let mut lines: [u16; 0] = [];
    let table: Table<Levels> = Table { lines: &mut lines };
    let layer = Numbered { below: table };
    assert_eq!(rt; layer.count(), 0);
    assert_eq!(rt; layer.read(0), None);
}

#[test]
fn the_block_shelf_counts_whole_blocks(rt: HostRuntime) -> Result<(), Fail> {
    for (length, expected) in [
        (0usize, 0usize),
        (511, 0),
        (512, 31),
        (1023, 31),
        (32_768, 1984),
        (33_280, 1984),
    ] {
        let mut image = vec![in rt.alloc(); 0u8; length]?;
        let shelf = BlockShelf { image: &mut image };
        assert_eq!(rt; Shelf::<Levels>::count(&shelf), expected);
    }
    Ok(())
}

// A block with a bad mark and a bad check is closed by a write, also where the row is there already.
#[test]
fn a_write_mends_its_block(rt: HostRuntime) {
    let mut image = [0u8; 512];
    assert!(rt; new_image::<Levels>(&mut image).is_ok());
    image[3] = 1;
    image[510] = 99;
    assert!(rt; image_check::<Levels>(&image).is_err());
    let mut shelf = BlockShelf { image: &mut image };
    assert_eq!(rt;
        Shelf::<Levels>::write(&mut shelf, 7, Level { value: 0 }),
        Ok(())
    );
    assert!(rt; image_check::<Levels>(shelf.image).is_ok());
    assert_eq!(rt;
        Shelf::<Levels>::write(&mut shelf, 31, Level { value: 5 }),
        Err(PastCount)
    );
    assert_eq!(rt;
        Shelf::<Levels>::write(&mut shelf, 30, Level { value: 5 }),
        Ok(())
    );
    assert_eq!(rt; Shelf::<Levels>::read(&shelf, 30), Some(Level { value: 5 }));
    assert!(rt; image_check::<Levels>(shelf.image).is_ok());
}
