// What the command line asks for: plot [KIND [BLOCKS [FILE]]].
use anyhow::{Context, anyhow};
use std::env::Args;
use values::name::KindName;

#[derive(Drop)]
pub(crate) struct Asked {
    pub kind: KindName,
    pub blocks: u8,
    // None: the image is kept in memory alone.
    pub file: Option<String>,
}

fn kind_named(word: &str) -> anyhow::Result<KindName> {
    word.parse()
        .ok()
        .context("the first word is the kind: level or timing")
}

fn block_count(word: &str) -> anyhow::Result<u8> {
    word.parse()
        .ok()
        .filter(|n| (1..=64).contains(n))
        .context("the second word is the number of blocks: 1 to 64")
}

pub(crate) fn read_words(mut words: Args) -> anyhow::Result<Asked> {
    let _program = words.next();
    let kind = match words.next() {
        Some(word) => kind_named(word.as_str())?,
        None => KindName::Level,
    };
    let blocks = match words.next() {
        Some(word) => block_count(word.as_str())?,
        None => 2,
    };
    let file = words.next();
    if words.next().is_some() {
        return Err(anyhow!("there are at most three words: plot [KIND [BLOCKS [FILE]]]"));
    }
    Ok(Asked { kind, blocks, file })
}
