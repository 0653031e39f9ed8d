//! What single words say, by the rule of their place.
ghost use Rattle.std.specs.Prelude.{◌≡◌, ◌≤◌, ◌<◌, ◌^◌, IfOk, IfSome, option_map};
ghost use Rattle.clap.specs.Words.{found_of, rows_of};
ghost use Rattle.site_words.specs.Reading.{saying};
ghost use Rattle.site_words.specs.Said as spec;

use crate::ids::{DIR, KEY, MERGE, NODE, WORKERS};
use crate::word_stop::BadWord;
use clap::ArgMatches;
use hiera_merge::Merge;
use word_rules::{MOST_WORKERS, is_node_name, number_within};

/// The word at this place. It is there, since `clap` takes no words without it.
#[tactic(auto, using(crate::proofs::Rows::found_in_rows))]
pub fn word_of<'a>(words: &ArgMatches<'a>, id: &str) -> &'a str
    ensures { result.now ≡ spec.word_of id.now (rows_of (found_of words.now)) }
{
    words.get_str(id).unwrap_or("")
}

#[tactic(auto, using(crate::proofs::Rows::found_in_rows))]
pub fn dir_of<'a>(words: &ArgMatches<'a>) -> Option<&'a str>
    ensures { option_map (λ d. d.now) result ≡ spec.dir_in (rows_of (found_of words.now)) }
{
    words.get_str(DIR)
}

/// Whether the flag is there.
#[tactic(auto, using(crate::proofs::Rows::found_in_rows))]
pub fn flag_of(words: &ArgMatches<'_>, id: &str) -> bool
    ensures { result ≡ spec.flag_in id.now (rows_of (found_of words.now)) }
{
    match words.get_str(id) {
        Some(word) => word == "true",
        None => false,
    }
}

pub fn node_of<'a>(words: &ArgMatches<'a>) -> Result<&'a str, BadWord<'a>>
    ensures { saying (λ s. s.now) result ≡ spec.node_in (rows_of (found_of words.now)) }
{
    let word = word_of(words, NODE);
    if is_node_name(word) {
        Ok(word)
    } else {
        Err(BadWord { word })
    }
}

pub fn key_of<'a>(words: &ArgMatches<'a>) -> Result<&'a str, BadWord<'a>>
    ensures { saying (λ s. s.now) result ≡ spec.key_in (rows_of (found_of words.now)) }
{
    let word = word_of(words, KEY);
    if word.is_empty() {
        Err(BadWord { word })
    } else {
        Ok(word)
    }
}

/// A number from 1 on.
pub fn number_of<'a>(words: &ArgMatches<'a>, id: &str, most: u32) -> Result<u32, BadWord<'a>>
    requires { most < 2 ^ 24 }
    ensures number { saying (λ n. n) result ≡ spec.number_in id.now most (rows_of (found_of words.now)) }
    ensures within { IfOk result (λ n. (1 ≤ n) × (n ≤ most)) }
{
    number_said(word_of(words, id), most)
}

#[tactic(auto, using(crate::proofs::Rows::found_in_rows))]
pub fn workers_of<'a>(words: &ArgMatches<'a>) -> Result<u32, BadWord<'a>>
    ensures number { saying (λ n. n) result ≡ spec.workers_in (rows_of (found_of words.now)) }
    ensures within { IfOk result (λ n. (1 ≤ n) × (n ≤ MOST_WORKERS)) }
{
    match words.get_str(WORKERS) {
        None => Ok(1),
        Some(word) => number_said(word, MOST_WORKERS),
    }
}

/// The workers, where there is a word on them.
#[tactic(auto, using(crate::proofs::Rows::found_in_rows))]
pub fn given_workers_of<'a>(words: &ArgMatches<'a>) -> Result<Option<u32>, BadWord<'a>>
    ensures number { saying (λ n. n) result ≡ spec.given_workers_in (rows_of (found_of words.now)) }
    ensures within { IfOk result (λ given. IfSome given (λ n. (1 ≤ n) × (n ≤ MOST_WORKERS))) }
{
    match words.get_str(WORKERS) {
        None => Ok(None),
        Some(word) => Ok(Some(number_said(word, MOST_WORKERS)?)),
    }
}

fn number_said(word: &str, most: u32) -> Result<u32, BadWord<'_>>
    requires { most < 2 ^ 24 }
    ensures number { saying (λ n. n) result ≡ spec.number_said most word.entry.now }
    ensures within { IfOk result (λ n. (1 ≤ n) × (n ≤ most)) }
{
    match number_within(word, 1, most) {
        Some(number) => Ok(number),
        None => Err(BadWord { word }),
    }
}

#[tactic(auto, using(crate::proofs::Rows::found_in_rows))]
pub fn merge_of<'a>(words: &ArgMatches<'a>) -> Result<Option<Merge>, BadWord<'a>>
    ensures { saying (λ m. m) result ≡ spec.merge_in (rows_of (found_of words.now)) }
{
    let Some(word) = words.get_str(MERGE) else {
        return Ok(None);
    };
    match Merge::from_name(word) {
        None => Err(BadWord { word }),
        merge => Ok(merge),
    }
}
