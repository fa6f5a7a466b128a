//! The declared paths of property keys, and how they number the keys.
ghost use Rattle.std.specs.Prelude.{◌≡◌, ◌≤◌, ◌+◌, ◌&&◌, true, [], length, map, take, All, IfOk, IfSome, OnOk, Ok, option_map};
ghost use Rattle.std.specs.List.{list_all};
ghost use Rattle.toml.specs.Data.{get_member};
ghost use Rattle.tide_shape.specs.Shapes.{first_double};
ghost use Rattle.tide_workload.specs.Fields.{or_default};
ghost use Rattle.tide_text.specs.work.FieldNames.{name_of};
ghost use Rattle.toml.specs.View.{view, table_view};
ghost use Rattle.tide_text.specs.work.Keys.{is_key_byte, is_key, key_number};
ghost use Rattle.tide_workload.specs.Shapes.{are_keys, path_words, path_in, paths_in, add_names, key_names, paths_by_number, unless_double, declared_in};
ghost use Rattle.tide_workload.specs.Steps.{each, Gives};
ghost use Rattle.tide_text.specs.work.Words.{is_trimmed, words_in};
ghost use Rattle.tide_text.specs.work.Work.{AreKeys, ArePaths};

use crate::fields::{value_of, values_in};
use std::alloc::{AllocError, Global};
use tide_shape::{Paths, double_path};
use tide_text::{Fault, Field, Keys, is_key, is_trimmed, next_word};
use toml::{Table, Value};

/// How many paths a workload may declare.
const MAX_PATHS: usize = 64;

/// How many keys a path may have.
const MAX_PATH: usize = 64;

/// The first words of a text, as many as `limit` where it has so many.
fn first_words(alloc: Global, text: &[u8], limit: usize) -> Result<Vec<&[u8]>, AllocError>
    ensures { IfOk result (λ words. map (λ word. word.now) words.items ≡ take limit (words_in text.now)) }
{
    let mut words = Vec::new(alloc);
    let mut rest = text;
    for _ in 0..limit {
        let Some((word, after)) = next_word(rest) else {
            return Ok(words);
        };
        words.push(word)?;
        rest = after;
    }
    Ok(words)
}

fn has_keys_only(words: &[&[u8]]) -> bool
    ensures { result ≡ list_all (λ word. is_key word.now) words.now }
{
    words.iter().all(|word| is_key(word))
}

/// Whether words are a path: 1 to 64 keys.
fn are_keys(words: &[&[u8]]) -> bool
    ensures { result ≡ are_keys (map (λ word. word.now) words.now) }
{
    !words.is_empty() && words.len() <= MAX_PATH && has_keys_only(words)
}

/// Whether the words are a path, and its text is trimmed.
fn is_path(text: &[u8], words: &[&[u8]]) -> bool
    ensures { result ≡ (is_trimmed text.now && are_keys (map (λ word. word.now) words.now)) }
{
    is_trimmed(text) && are_keys(words)
}

/// The words of a path's text.
fn path_words(alloc: Global, text: &[u8]) -> Result<Option<Vec<&[u8]>>, AllocError>
    ensures words { IfOk result (λ found.
        option_map (λ words. map (λ word. word.now) words.items) found ≡ path_words text.now) }
    ensures keys { IfOk result (λ found. IfSome found (λ words. are_keys (map (λ word. word.now) words.items) ≡ true)) }
{
    let words = first_words(alloc, text, MAX_PATH + 1)?;
    if is_path(text, words.as_slice()) {
        Ok(Some(words))
    } else {
        Ok(None)
    }
}

/// The words of the path that a value is the text of.
fn path_in(alloc: Global, value: &Value) -> Result<Vec<&[u8]>, Fault>
    ensures words { Gives (λ words. map (λ word. word.now) words.items) result (path_in (view value.now)) }
    ensures keys { IfOk result (λ words. are_keys (map (λ word. word.now) words.items) ≡ true) }
{
    let bad = Fault::Bad {
        field: Field::Shapes,
    };
    let text = value.as_str().ok_or(bad)?;
    path_words(alloc, text.as_bytes())?.ok_or(bad)
}

/// The words of each of some paths, whose texts these values are.
fn paths_of_each(alloc: Global, values: &[Value]) -> Result<Vec<Vec<&[u8]>>, Fault>
    ensures words { Gives (λ paths. map (λ words. map (λ word. word.now) words.items) paths.items)
        result (each path_in (map view values.now)) }
    ensures count { IfOk result (λ paths. length paths.items ≡ length values.now) }
    ensures keys { IfOk result (λ paths.
        All (λ words. are_keys (map (λ word. word.now) words.items) ≡ true) paths.items) }
{
    let mut paths = Vec::new(alloc);
    for value in values {
        paths.push(path_in(alloc, value)?)?;
    }
    Ok(paths)
}

/// The words of each path that a value declares.
fn paths_in(alloc: Global, value: &Value) -> Result<Vec<Vec<&[u8]>>, Fault>
    ensures words { Gives (λ paths. map (λ words. map (λ word. word.now) words.items) paths.items)
        result (paths_in (view value.now)) }
    ensures few { IfOk result (λ paths. length paths.items ≤ 64) }
    ensures keys { IfOk result (λ paths.
        All (λ words. are_keys (map (λ word. word.now) words.items) ≡ true) paths.items) }
{
    let values = values_in(Field::Shapes, value, 0, MAX_PATHS)?;
    paths_of_each(alloc, values)
}

/// Puts those words of a path that are new behind the names of the keys.
fn add_names(alloc: Global, keys: &mut Keys, words: &[&[u8]]) -> Result<(), AllocError>
    requires room { length keys.old + 64 ≤ 4096 }
    requires keys { are_keys (map (λ word. word.now) words.now) ≡ true }
    ensures names { OnOk result (keys.new ≡ add_names keys.old (map (λ word. word.now) words.now)) }
    ensures few { OnOk result (length keys.new ≤ length keys.old + 64) }
{
    for word in words {
        keys.add(alloc, word)?;
    }
    Ok(())
}

/// The names of the keys of some paths.
fn key_names(alloc: Global, paths: &[Vec<&[u8]>]) -> Result<Keys, AllocError>
    requires few { length paths.now ≤ 64 }
    requires keys { All (λ words. are_keys (map (λ word. word.now) words.items) ≡ true) paths.now }
    ensures { IfOk result (λ keys. keys ≡ key_names (map (λ words. map (λ word. word.now) words.items) paths.now)) }
{
    let mut keys = Keys::new(alloc);
    for words in paths {
        add_names(alloc, &mut keys, words.as_slice())?;
    }
    Ok(keys)
}

/// A path as the numbers of its keys.
fn numbers_of(alloc: Global, keys: &Keys, words: &[&[u8]]) -> Result<Vec<u32>, AllocError>
    ensures { IfOk result (λ path. path.items ≡ map (key_number keys.now) (map (λ word. word.now) words.now)) }
{
    let mut path = Vec::with_capacity(alloc, words.len())?;
    for word in words {
        path.push(keys.place(word))?;
    }
    Ok(path)
}

/// Paths as the numbers of their keys.
fn paths_by_number(alloc: Global, keys: &Keys, paths: &[Vec<&[u8]>]) -> Result<Paths, Fault>
    requires { length paths.now ≤ 64 }
    ensures { Gives (λ numbers. numbers) result
        (Ok (paths_by_number keys.now (map (λ words. map (λ word. word.now) words.items) paths.now))) }
{
    let mut numbers = Paths::new(alloc);
    for words in paths {
        numbers.push(numbers_of(alloc, keys, words.as_slice())?)?;
    }
    Ok(numbers)
}

/// Keys and paths, unless a path names a key twice.
fn unless_double(keys: Keys, paths: Paths) -> Result<(Keys, Paths), Fault>
    ensures { Gives (λ shapes. (shapes.0, shapes.1)) result (unless_double keys paths (first_double paths)) }
{
    match double_path(&paths) {
        Some(_) => Err(Fault::Bad {
            field: Field::Shapes,
        }),
        None => Ok((keys, paths)),
    }
}

/// The words of each path of a document.
fn words_of_paths(alloc: Global, document: &Table) -> Result<Vec<Vec<&[u8]>>, Fault>
    ensures words { Gives (λ paths. map (λ words. map (λ word. word.now) words.items) paths.items) result
        (or_default [] paths_in (get_member (name_of Field.Shapes) (table_view document.now))) }
    ensures few { IfOk result (λ paths. length paths.items ≤ 64) }
    ensures keys { IfOk result (λ paths.
        All (λ words. are_keys (map (λ word. word.now) words.items) ≡ true) paths.items) }
{
    match value_of(document, Field::Shapes) {
        Some(value) => paths_in(alloc, value),
        None => Ok(Vec::new(alloc)),
    }
}

/// The keys of a document, and its paths as numbers of keys.
#[tactic(auto, unfolding(crate::specs::Shapes::declared_in))]
pub(crate) fn declared_in(alloc: Global, document: &Table) -> Result<(Keys, Paths), Fault>
    ensures shapes { Gives (λ shapes. (shapes.0, shapes.1)) result (declared_in (table_view document.now)) }
    ensures keys { IfOk result (λ shapes. AreKeys shapes.0) }
    ensures paths { IfOk result (λ shapes. ArePaths (length shapes.0) shapes.1) }
{
    let words = words_of_paths(alloc, document)?;
    let keys = key_names(alloc, words.as_slice())?;
    let paths = paths_by_number(alloc, &keys, words.as_slice())?;
    unless_double(keys, paths)
}
