// A record of the sample: the number that its call gives, then words of four bytes each, the low byte
// first. Bytes that the sample lacks at its end are 0.
use float::{bits_of, float_of};
use std::io::Read;

#[derive(Drop)]
pub(crate) struct Record<R> {
    input: R,
    pub(crate) number: u32,
}

impl<R: Read> Record<R> {
    pub(crate) fn new(input: R, number: u32) -> Self {
        Record { input, number }
    }

    // Reads the next bytes; those that the sample lacks stay as they stood.
    fn read(&mut self, bytes: &mut [u8]) {
        let _ = self.input.read_exact(bytes);
    }

    pub(crate) fn bytes<const N: usize>(&mut self) -> [u8; N] {
        let mut bytes = [0; N];
        self.read(&mut bytes);
        bytes
    }

    pub(crate) fn words<const N: usize>(&mut self) -> [u32; N] {
        let mut bytes = [[0; 4]; N];
        self.read(bytes.as_flattened_mut());
        words_of(&bytes)
    }

    pub(crate) fn word(&mut self) -> u32 {
        u32::from_le_bytes(self.bytes())
    }
}

// The words that N times four bytes are.
fn words_of<const N: usize>(bytes: &[[u8; 4]; N]) -> [u32; N] {
    let mut words = [0; N];
    for (word, bytes) in words.iter_mut().zip(bytes) {
        *word = u32::from_le_bytes(*bytes);
    }
    words
}

// What a call may write, as the sample has it: N words, which one read takes.
#[derive(Clone, Copy)]
pub(crate) struct Lent<const N: usize> {
    words: [[u8; 4]; N],
}

impl<const N: usize> Lent<N> {
    pub(crate) fn read(record: &mut Record<impl Read>) -> Self {
        let mut words = [[0; 4]; N];
        record.read(words.as_flattened_mut());
        Lent { words }
    }

    // As the call leaves it: the words that stand behind; where it is refused, those that were there.
    pub(crate) fn left(self, record: &mut Record<impl Read>) -> Self {
        let mut words = self.words;
        if record.number == 0 {
            record.read(words.as_flattened_mut());
        }
        Lent { words }
    }

    // Its words, of which parts are taken from the front.
    pub(crate) fn parts(&self) -> Parts<'_> {
        Parts { rest: &self.words }
    }
}

#[derive(Drop)]
pub(crate) struct Parts<'a> {
    rest: &'a [[u8; 4]],
}

impl<'a> Parts<'a> {
    pub(crate) fn words<const N: usize>(&mut self) -> [u32; N] {
        let mut words = [0; N];
        for word in words.iter_mut() {
            let Some((first, rest)) = self.rest.split_first() else {
                break;
            };
            *word = u32::from_le_bytes(*first);
            self.rest = rest;
        }
        words
    }

    pub(crate) fn floats<const N: usize>(&mut self) -> [f32; N] {
        let words = self.words::<N>();
        let mut floats = [0.0; N];
        for (float, word) in floats.iter_mut().zip(&words) {
            *float = float_of(*word);
        }
        floats
    }

    // Whether the next words are these floats. A NaN is 7FC00000.
    pub(crate) fn are_floats<const N: usize>(&mut self, floats: [f32; N]) -> bool {
        let words = self.words::<N>();
        let mut pairs = floats.iter().zip(&words);
        pairs.all(|(float, word)| bits_of(*float) == *word)
    }
}
