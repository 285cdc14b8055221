// The engine at its limits: which shelves fit, station and record numbers, and the first stamps.
use engine::Engine;
use engine::fitting::fit;
use rules::Refusal;
use shelves::shelf::Shelf;
use shelves::table::Table;
use std::test::Fail;
use values::level::Levels;

// What was answered, or the refusal's number.
fn told(r: Result<u32, Refusal>) -> Result<u32, u32> {
    r.map_err(u32::from)
}

#[test]
fn counts_that_fit(rt: HostRuntime) {
    for (show, drafts, expected) in [
        (1usize, 256usize, 0u32),
        (1984, 256, 0),
        (0, 256, 20),
        (1985, 256, 20),
        (7, 255, 20),
        (7, 257, 20),
    ] {
        assert_eq!(rt; fit(show, drafts), expected);
    }
}

#[test]
fn station_and_record_numbers(rt: HostRuntime) -> Result<(), Fail> {
    let mut values = vec![in rt.alloc(); 100u16; 1984]?;
    let mut rows = [0u16; 256];
    let show: Table<Levels> = Table { lines: &mut values };
    let drafts: Table<Levels> = Table { lines: &mut rows };
    let mut engine: Engine<Levels, Table<Levels>, Table<Levels>> = Engine::open(show, drafts, 0);
    assert_eq!(rt; engine.count(), 1984);
    assert_eq!(rt; told(engine.begin(15)), Ok(1));
    assert_eq!(rt; told(engine.begin(16)), Err(1));
    assert_eq!(rt; told(engine.begin(15)), Err(3));
    assert_eq!(rt; told(engine.again(15)), Err(13));
    assert!(rt; engine.plotted(1983).is_ok());
    assert!(rt; engine.plotted(1984).is_err());
    assert!(rt; engine.look(15, 5).is_err());
    assert!(rt; engine.standing(16).is_err());
    Ok(())
}

#[test]
fn shelves_that_do_not_fit_have_no_records(rt: HostRuntime) {
    let mut values = [100u16; 7];
    let mut rows = [0u16; 255];
    let show: Table<Levels> = Table { lines: &mut values };
    let drafts: Table<Levels> = Table { lines: &mut rows };
    let engine: Engine<Levels, Table<Levels>, Table<Levels>> = Engine::open(show, drafts, 1);
    assert_eq!(rt; engine.count(), 0);
    assert!(rt; engine.plotted(0).is_err());
}

#[test]
fn first_stamps(rt: HostRuntime) {
    for (first, expected, then) in [
        (0u32, Ok(1u32), Ok(2u32)),
        (4_000_000_000, Ok(4_000_000_000), Err(12u32)),
        (4_000_000_001, Err(12), Err(12)),
    ] {
        let mut values = [0u16; 7];
        let mut rows = [0u16; 256];
        let show: Table<Levels> = Table { lines: &mut values };
        let drafts: Table<Levels> = Table { lines: &mut rows };
        let mut engine: Engine<Levels, Table<Levels>, Table<Levels>> = Engine::open(
            show, drafts, first,
        );
        assert_eq!(rt; told(engine.begin(0)), expected);
        assert_eq!(rt; told(engine.begin(1)), then);
    }
}
