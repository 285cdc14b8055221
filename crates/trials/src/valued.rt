// The two kinds at their limits, the byte that a refusal names, and kinds and links by number and by word.
use std::test::Fail;
use values::kind::Kind;
use values::level::{Level, LevelChange, Levels};
use values::name::{KindName, UnknownKind, UnknownWord};
use values::timing::{Link, TimingChange, Timings, UnknownLink};

fn with(mut bytes: [u8; 16], at: usize, byte: u8) -> [u8; 16] {
    if at < 16 {
        bytes[at] = byte;
    }
    bytes
}

#[test]
fn levels_stop_at_their_limits(rt: HostRuntime) {
    let home = Levels::home();
    assert_eq!(rt; home.value, 0);
    let high = Levels::apply(home, LevelChange::Set(65_000));
    assert_eq!(rt; Levels::apply(high, LevelChange::Up(535)).value, 65_535);
    assert_eq!(rt; Levels::apply(high, LevelChange::Up(65_535)).value, 65_535);
    assert_eq!(rt; Levels::apply(high, LevelChange::Down(65_000)).value, 0);
    assert_eq!(rt; Levels::apply(high, LevelChange::Down(65_535)).value, 0);
}

#[test]
fn levels_pack_little_endian(rt: HostRuntime) {
    let v = Level { value: 0x1234 };
    let bytes = Levels::pack(v);
    assert_eq!(rt; bytes[0], 0x34);
    assert_eq!(rt; bytes[1], 0x12);
    assert_eq!(rt; Levels::unpack(bytes), Ok(v));
    // k is the byte that the refusal has to name.
    for k in 2..16u8 {
        assert_eq!(rt; Levels::unpack(with(bytes, k as usize, 1)), Err(k));
    }
}

#[test]
fn timings_stop_at_an_hour(rt: HostRuntime) {
    let home = Timings::home();
    assert_eq!(rt;
        Timings::apply(home, TimingChange::FadeUp(36_001)).up,
        36_000
    );
    assert_eq!(rt;
        Timings::apply(home, TimingChange::FadeDown(36_000)).down,
        36_000
    );
    assert_eq!(rt;
        Timings::apply(home, TimingChange::Wait(65_535)).wait,
        36_000
    );
    let linked = Timings::apply(home, TimingChange::Link(1));
    assert_eq!(rt; Timings::apply(linked, TimingChange::Link(3)), linked);
    assert_ne!(rt; Timings::apply(linked, TimingChange::Link(2)), linked);
}

#[test]
fn timings_name_the_first_bad_byte(rt: HostRuntime) {
    let home = Timings::pack(Timings::home());
    assert_eq!(rt; Timings::unpack(home), Ok(Timings::home()));
    for (at, byte, named) in [
        (1usize, 141u8, 0u8),
        (3, 255, 2),
        (5, 200, 4),
        (6, 3, 6),
        (7, 1, 7),
        (15, 9, 15),
    ] {
        assert_eq!(rt; Timings::unpack(with(home, at, byte)), Err(named));
    }
}

#[test]
fn kinds_are_named(rt: HostRuntime) -> Result<(), Fail> {
    assert_eq!(rt; KindName::try_from(2u32), Ok(KindName::Timing));
    assert_eq!(rt; KindName::try_from(3u32), Err(UnknownKind(3)));
    assert_eq!(rt; u32::from(KindName::Level), 1);
    assert_eq!(rt; "timing".parse::<KindName>(), Ok(KindName::Timing));
    assert_eq!(rt; "Timing".parse::<KindName>(), Err(UnknownWord));
    assert_eq!(rt; KindName::Level.to_string(rt.alloc())?.as_str(), "level");
    assert_eq!(rt;
        UnknownWord.to_string(rt.alloc())?.as_str(),
        "level or timing"
    );
    assert_eq!(rt;
        UnknownKind(3).to_string(rt.alloc())?.as_str(),
        "no kind has number 3"
    );
    Ok(())
}

#[test]
fn links_have_numbers(rt: HostRuntime) -> Result<(), Fail> {
    assert_eq!(rt; Link::try_from(2u8), Ok(Link::WithPrevious));
    assert_eq!(rt; Link::try_from(3u8), Err(UnknownLink(3)));
    assert_eq!(rt; u8::from(Link::AfterPrevious), 1);
    assert_eq!(rt;
        UnknownLink(3).to_string(rt.alloc())?.as_str(),
        "no link has number 3"
    );
    Ok(())
}
