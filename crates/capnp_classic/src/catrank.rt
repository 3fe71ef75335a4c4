//! What a search found, ranked by the words in it: texts and copies of texts.
ghost use Rattle.std.specs.Prelude.{◌<◌, ◌≤◌, length};

use crate::benchmark::Benchmark;
use crate::catrank_capnp::{search_result, search_result_list};
use crate::random::Random;
use capnp::Result;
use capnp::message::{Reader, ReaderSegments};
use capnp::orphans::Orphanage;
use std::alloc::Global;
use std::cmp::Ordering;

const WORDS: [&str; 13] = [
    "foo ", "bar ", "baz ", "qux ", "quux ", "corge ", "grault ", "garply ", "waldo ", "fred ",
    "plugh ", "xyzzy ", "thud ",
];

/// A result by its place in the request, and its score.
#[derive(Clone, Copy)]
struct Scored {
    score: f64,
    index: u32,
}

/// The benchmark, with the results of a request or a response, and what they are made of.
#[derive(Drop)]
pub struct CatRank {
    results: Vec<search_result::Builder>,
    scored: Vec<Scored>,
    text: String,
}

impl Benchmark for CatRank {
    fn new(alloc: Global) -> Self {
        CatRank {
            results: Vec::new(alloc),
            scored: Vec::new(alloc),
            text: String::new(alloc),
        }
    }

    fn request(&mut self, random: &mut Random, objects: &mut Orphanage) -> Result<u64> {
        self.results.clear();
        let count = random.below(1000);
        self.results.reserve(count as usize)?;
        let mut good: u64 = 0;
        for index in 0..count {
            let mut result = search_result::Builder::new();
            result.set_score(1000.0 - f64::from(index));
            fill_url(&mut self.text, random)?;
            result.set_url(objects.text(self.text.as_str())?);
            if fill_snippet(&mut self.text, random)? {
                good = good.wrapping_add(1);
            }
            result.set_snippet(objects.text(self.text.as_str())?);
            self.results.push(result)?;
        }
        self.add_root(objects)?;
        Ok(good)
    }

    fn respond<S: ReaderSegments>(
        &mut self,
        request: &Reader<S>,
        objects: &mut Orphanage,
    ) -> Result<()> {
        let root: search_result_list::Reader<'_, S> = request.get_root()?;
        let results = root.get_results()?;
        self.scored.clear();
        self.scored.reserve(results.len() as usize)?;
        for index in 0..results.len() {
            let score = score_of(&results.get(index))?;
            self.scored.push(Scored { score, index })?;
        }
        self.scored
            .sort_unstable_by(|one, other| falling(one, other));
        self.results.clear();
        self.results.reserve(results.len() as usize)?;
        for scored in &self.scored {
            if let Some(result) = results.try_get(scored.index) {
                self.results.push(copy_of(&result, scored.score, objects)?)?;
            }
        }
        self.add_root(objects)
    }

    fn said<S: ReaderSegments>(&self, response: &Reader<S>) -> Result<u64> {
        let root: search_result_list::Reader<'_, S> = response.get_root()?;
        let results = root.get_results()?;
        let mut good: u64 = 0;
        for result in results.iter() {
            if result.get_score() <= 1001.0 {
                break;
            }
            good = good.wrapping_add(1);
        }
        Ok(good)
    }
}

impl CatRank {
    // Writes the list of the results as the root.
    fn add_root(&self, objects: &mut Orphanage) -> Result<()> {
        let mut root = search_result_list::Builder::new();
        root.set_results(search_result::Builder::add_list(self.results.as_slice(), objects)?);
        root.add_root(objects)
    }
}

fn fill_url(text: &mut String, random: &mut Random) -> Result<()> {
    text.clear();
    text.push_str("http://example.com/")?;
    for _ in 0..random.below(100) {
        text.push((b'a' + random.below(26) as u8) as char)?;
    }
    Ok(())
}

// Fills a snippet, and returns whether it has the word that is looked for, and not the one to
// avoid.
fn fill_snippet(text: &mut String, random: &mut Random) -> Result<bool> {
    let cat = random.below(8) == 0;
    let dog = random.below(8) == 0;
    text.clear();
    text.push_str(" ")?;
    push_words(text, random)?;
    if cat {
        text.push_str("cat ")?;
    }
    if dog {
        text.push_str("dog ")?;
    }
    push_words(text, random)?;
    Ok(cat && !dog)
}

fn push_words(text: &mut String, random: &mut Random) -> Result<()> {
    for _ in 0..random.below(20) {
        text.push_str(WORDS[random.below(13) as usize])?;
    }
    Ok(())
}

fn score_of<S: ReaderSegments>(read: &search_result::Reader<'_, S>) -> Result<f64> {
    let mut score = read.get_score();
    let snippet = read.get_snippet()?;
    if has_word(snippet.as_bytes(), b" cat ") {
        score *= 10000.0;
    }
    if has_word(snippet.as_bytes(), b" dog ") {
        score /= 10000.0;
    }
    Ok(score)
}

// Whether these five bytes are in a text.
fn has_word(text: &[u8], word: &[u8; 5]) -> bool {
    for at in 0..text.len().saturating_sub(4) {
        if text[at] == word[0]
            && text[at + 1] == word[1]
            && text[at + 2] == word[2]
            && text[at + 3] == word[3]
            && text[at + 4] == word[4]
        {
            return true;
        }
    }
    false
}

// The higher score first.
fn falling(one: &Scored, other: &Scored) -> Ordering {
    if one.score > other.score {
        Ordering::Less
    } else if one.score < other.score {
        Ordering::Greater
    } else {
        Ordering::Equal
    }
}

fn copy_of<S: ReaderSegments>(
    read: &search_result::Reader<'_, S>,
    score: f64,
    objects: &mut Orphanage,
) -> Result<search_result::Builder> {
    let mut result = search_result::Builder::new();
    result.set_score(score);
    result.set_url(objects.set(&read.get_url()?)?);
    result.set_snippet(objects.set(&read.get_snippet()?)?);
    Ok(result)
}
