// One damaged image for each refusal and each kind of bad row, of two blocks.
use image::fresh::new_image;
use plot_image::plot_image_check;
use std::process::Abort;
use values::level::Levels;
use values::timing::Timings;

// A byte of the image is set; where `closed`, its block's check is then made to fit.
#[derive(Clone, Copy)]
struct Damage {
    at: usize,
    byte: u8,
    closed: bool,
    expected: u32,
}

// The check of a block, byte by byte and apart from the library's.
fn close_by_hand(block: &mut [u8; 512]) {
    let (before, check) = block.split_at_mut(504);
    check.fill(0);
    for group in before.chunks_exact(8) {
        for (x, byte) in check.iter_mut().zip(group) {
            *x ^= *byte;
        }
    }
}

fn damaged(good: &[u8; 1024], d: Damage) -> [u8; 1024] {
    let mut image = *good;
    if let Some(byte) = image.get_mut(d.at) {
        *byte = d.byte;
    }
    if d.closed {
        for block in image.as_chunks_mut::<512>().0 {
            close_by_hand(block);
        }
    }
    image
}

fn try_all(rt: &impl Abort, good: &[u8; 1024], kind: u32, table: &[Damage]) {
    assert_eq!(rt; plot_image_check(good, kind), 0, "the good image");
    for d in table {
        let image = damaged(good, *d);
        assert_eq!(rt; plot_image_check(&image, kind), d.expected);
    }
}

#[test]
fn damaged_levels(rt: HostRuntime) {
    let mut good = [0u8; 1024];
    assert!(rt; new_image::<Levels>(&mut good).is_ok());
    let table = [
        Damage {
            at: 0,
            byte: 1,
            closed: true,
            expected: 15,
        },
        Damage {
            at: 513,
            byte: 1,
            closed: true,
            expected: 15 + 256,
        },
        Damage {
            at: 2,
            byte: 2,
            closed: true,
            expected: 16,
        },
        Damage {
            at: 514,
            byte: 0,
            closed: true,
            expected: 16 + 256,
        },
        Damage {
            at: 3,
            byte: 1,
            closed: true,
            expected: 17,
        },
        Damage {
            at: 4,
            byte: 1,
            closed: true,
            expected: 17,
        },
        Damage {
            at: 519,
            byte: 9,
            closed: true,
            expected: 17 + 256,
        },
        Damage {
            at: 504,
            byte: 77,
            closed: false,
            expected: 18,
        },
        Damage {
            at: 1023,
            byte: 77,
            closed: false,
            expected: 18 + 256,
        },
        Damage {
            at: 8,
            byte: 1,
            closed: false,
            expected: 18,
        },
        Damage {
            at: 8,
            byte: 255,
            closed: true,
            expected: 0,
        },
        Damage {
            at: 10,
            byte: 1,
            closed: true,
            expected: 19,
        },
        Damage {
            at: 8 + 16 * 30 + 15,
            byte: 1,
            closed: true,
            expected: 19 + 65_536 * 30,
        },
        Damage {
            at: 512 + 8 + 16 * 5 + 2,
            byte: 1,
            closed: true,
            expected: 19 + 256 + 65_536 * 5,
        },
    ];
    try_all(&rt, &good, 1, &table);
}

#[test]
fn damaged_timings(rt: HostRuntime) {
    let mut good = [0u8; 1024];
    assert!(rt; new_image::<Timings>(&mut good).is_ok());
    let table = [
        Damage {
            at: 2,
            byte: 1,
            closed: true,
            expected: 16,
        },
        Damage {
            at: 8,
            byte: 255,
            closed: true,
            expected: 0,
        },
        Damage {
            at: 9,
            byte: 141,
            closed: true,
            expected: 19,
        },
        Damage {
            at: 8 + 16 + 3,
            byte: 141,
            closed: true,
            expected: 19 + 65_536,
        },
        Damage {
            at: 512 + 8 + 5,
            byte: 255,
            closed: true,
            expected: 19 + 256,
        },
        Damage {
            at: 14,
            byte: 2,
            closed: true,
            expected: 0,
        },
        Damage {
            at: 14,
            byte: 3,
            closed: true,
            expected: 19,
        },
        Damage {
            at: 15,
            byte: 1,
            closed: true,
            expected: 19,
        },
        Damage {
            at: 8 + 16 * 30 + 15,
            byte: 1,
            closed: true,
            expected: 19 + 65_536 * 30,
        },
    ];
    try_all(&rt, &good, 2, &table);
}
