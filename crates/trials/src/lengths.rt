// Which lengths an image may have, and kind numbers that no kind has.
use image::fresh::new_image;
use plot_image::plot_image_check;
use std::test::Fail;
use values::level::Levels;

#[test]
fn only_whole_blocks_pass(rt: HostRuntime) -> Result<(), Fail> {
    for (length, expected) in [
        (0usize, 14u32),
        (511, 14),
        (512, 0),
        (513, 14),
        (32_768, 0),
        (33_280, 14),
    ] {
        let mut image = vec![in rt.alloc(); 7u8; length]?;
        let made = new_image::<Levels>(&mut image);
        assert_eq!(rt; made.is_ok(), expected == 0);
        assert_eq!(rt; plot_image_check(&image, 1), expected, "length");
    }
    Ok(())
}

#[test]
fn a_refused_length_is_left_alone(rt: HostRuntime) -> Result<(), Fail> {
    let mut image = vec![in rt.alloc(); 7u8; 511]?;
    let _ = new_image::<Levels>(&mut image);
    for byte in image.iter() {
        assert_eq!(rt; *byte, 7);
    }
    Ok(())
}

#[test]
fn an_unknown_kind_is_refused_after_the_length(rt: HostRuntime) {
    let mut image = [0u8; 512];
    assert!(rt; new_image::<Levels>(&mut image).is_ok());
    for kind in [0u32, 3, 257, 4_294_967_295] {
        assert_eq!(rt; plot_image_check(&image, kind), 16);
        assert_eq!(rt; plot_image_check(&image[0..511], kind), 14);
    }
}
