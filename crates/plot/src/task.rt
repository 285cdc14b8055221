// The task, step by step.
use crate::asked::Asked;
use crate::saving::{save, save_new};
use image::check::image_check;
use image::fresh::new_image;
use image::shelf::BlockShelf;
use shelves::numbered::Numbered;
use shelves::shelf::Shelf;
use std::fmt::Display;
use std::fs;
use values::kind::Kind;

// The low byte of record 0: row 1 of block 0.
const DAMAGED: usize = 24;

fn say_check<K: Kind>(rt: &HostRuntime, image: &[u8]) -> anyhow::Result<()> {
    match image_check::<K>(image) {
        Ok(()) => println!(rt; "Check: the image is sound.")?,
        Err(fault) => {
            let number = u32::from(fault);
            println!(rt; "Check: refused {number}, {fault}.")?;
        }
    }
    Ok(())
}

// The records of an image, which count from the image's row 1.
fn records_of(image: &mut [u8]) -> Numbered<BlockShelf<'_>> {
    Numbered {
        below: BlockShelf { image },
    }
}

fn write_record<K: Kind>(
    rt: &HostRuntime,
    records: &mut Numbered<BlockShelf<'_>>,
    n: usize,
    v: K::Value,
) -> anyhow::Result<()>
where
    K::Value: Display,
{
    match Shelf::<K>::write(records, n, v) {
        Ok(()) => println!(rt; "Record {n}: written {v}.")?,
        Err(_) => {
            let count = Shelf::<K>::count(records);
            println!(rt; "Record {n}: refused, there are {count} records.")?;
        }
    }
    Ok(())
}

// Writes the values, and one more past the last record.
fn write_records<K: Kind>(
    rt: &HostRuntime,
    image: &mut [u8],
    values: &[K::Value; 3],
) -> anyhow::Result<()>
where
    K::Value: Display,
{
    let mut records = records_of(image);
    let count = Shelf::<K>::count(&records);
    println!(rt;
        "Records: {count}; record n is row n + 1 of the image, and row 0 stays as it is."
    )?;
    for (n, v) in values.iter().enumerate() {
        write_record::<K>(rt, &mut records, n, *v)?;
    }
    write_record::<K>(rt, &mut records, count, values[0])
}

fn read_records<K: Kind>(rt: &HostRuntime, image: &mut [u8]) -> anyhow::Result<()>
where
    K::Value: Display,
{
    let records = records_of(image);
    // The numbers of records to ask for, not places of a list.
    for n in 0..4 {
        match Shelf::<K>::read(&records, n) {
            Some(v) => println!(rt; "Record {n}: reads {v}.")?,
            None => println!(rt; "Record {n}: refused.")?,
        }
    }
    Ok(())
}

// Turns one bit of a byte.
fn damage(rt: &HostRuntime, image: &mut [u8]) -> anyhow::Result<()> {
    if let Some(byte) = image.get_mut(DAMAGED) {
        let was = *byte;
        let is = was ^ 1;
        *byte = is;
        println!(rt; "Damage: byte {DAMAGED} of the image was {was} and is now {is}.")?;
    }
    Ok(())
}

// Writes record 0 again; the guard of its block closes the mark and writes the check.
fn mend<K: Kind>(rt: &HostRuntime, image: &mut [u8], v: K::Value) -> anyhow::Result<()>
where
    K::Value: Display,
{
    let _ = Shelf::<K>::write(&mut records_of(image), 0, v);
    println!(rt; "Mended: record 0 written again, {v}.")?;
    Ok(())
}

// The image goes to the file and comes back from it, where a file was named.
fn through_file(rt: &HostRuntime, asked: &Asked, image: &mut Vec<u8>) -> anyhow::Result<()> {
    if let Some(path) = &asked.file {
        save(rt, path.as_str(), image.as_slice())?;
        *image = fs::read(rt, path.as_str())?;
        let length = image.len();
        println!(rt; "File {path}: saved, and {length} bytes read back.")?;
    }
    Ok(())
}

fn new_show<K: Kind>(rt: &HostRuntime, asked: &Asked) -> anyhow::Result<Vec<u8>> {
    let mut image = vec![in rt.alloc(); 0u8; 512 * usize::from(asked.blocks)]?;
    new_image::<K>(&mut image)?;
    if let Some(path) = &asked.file {
        save_new(rt, path.as_str(), image.as_slice())?;
    }
    let Asked { kind, blocks, .. } = asked;
    let length = image.len();
    println!(rt; "New image: kind {kind}, blocks {blocks}, bytes {length}.")?;
    Ok(image)
}

pub(crate) fn run_task<K: Kind>(
    rt: &HostRuntime,
    asked: &Asked,
    values: [K::Value; 3],
) -> anyhow::Result<()>
where
    K::Value: Display,
{
    let mut image = new_show::<K>(rt, asked)?;
    say_check::<K>(rt, &image)?;
    write_records::<K>(rt, &mut image, &values)?;
    through_file(rt, asked, &mut image)?;
    read_records::<K>(rt, &mut image)?;
    say_check::<K>(rt, &image)?;
    damage(rt, &mut image)?;
    through_file(rt, asked, &mut image)?;
    say_check::<K>(rt, &image)?;
    mend::<K>(rt, &mut image, values[0])?;
    through_file(rt, asked, &mut image)?;
    say_check::<K>(rt, &image)
}
