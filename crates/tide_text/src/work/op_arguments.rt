//! What the arguments of operations may name, and which operation they make, whose name is known.
ghost use Rattle.std.specs.Prelude.{◌≡◌, option_map};
ghost use Rattle.tide_text.specs.work.OpArguments.{limits_with};
ghost use Rattle.tide_text.specs.work.ReadOp.{register_of, key_of, one, two, three};
ghost use Rattle.tide_text.specs.work.Words.{words_in, number_of, number_below};

use crate::work::keys::Keys;
use crate::work::settings::Settings;
use crate::work::words::{byte_below, number_below, number_of, one_word, three_words, two_words};
use std::marker::Model;
use tide_model::Op;

/// How many registers and handles there are, and the property keys.
#[derive(Drop)]
pub struct OpArguments<'a> {
    registers: u8,
    strong: u16,
    weak: u16,
    keys: &'a Keys,
}

impl<'a> Model for OpArguments<'a> {
    ghost use Rattle.tide_text.specs.work.OpArguments.{OpArguments};

    ghost Value = { OpArguments };

    ghost view = { λ l. record { registers = l.registers; strong = l.strong; weak = l.weak; keys = l.keys.now } };
}

impl<'a> OpArguments<'a> {
    /// The limits under some settings and keys.
    pub fn new(settings: &Settings, keys: &'a Keys) -> Self
        ensures { result ≡ limits_with settings.now keys.now }
    {
        OpArguments {
            registers: settings.registers,
            strong: settings.strong,
            weak: settings.weak,
            keys,
        }
    }

    /// The register that a word names: `r` and its number.
    fn register(&self, word: &[u8]) -> Option<u8>
        ensures { result ≡ register_of self.now word.now }
    {
        match word {
            [b'r', digits @ ..] => byte_below(digits, self.registers),
            _ => None,
        }
    }

    /// `alloc rA C`, with a class of cells with slots
    pub(crate) fn alloc(&self, arguments: &[u8]) -> Option<Op>
        ensures { result ≡ option_map (λ o. Op.Alloc o.0 o.1)
            (two (register_of self.now) (number_below 4) (words_in arguments.now)) }
    {
        let (dst, class) = two_words(arguments)?;
        Some(Op::Alloc {
            dst: self.register(dst)?,
            class: byte_below(class, CLASSES)?,
        })
    }

    /// `table rA`
    pub(crate) fn table(&self, arguments: &[u8]) -> Option<Op>
        ensures { result ≡ option_map Op.Table (one (register_of self.now) (words_in arguments.now)) }
    {
        let dst = self.register(one_word(arguments)?)?;
        Some(Op::Table { dst })
    }

    /// `get rA rB K`, with a slot
    pub(crate) fn get(&self, arguments: &[u8]) -> Option<Op>
        ensures { result ≡ option_map (λ o. Op.Get o.0 o.1 o.2)
            (three (register_of self.now) (register_of self.now) (number_below 16) (words_in arguments.now)) }
    {
        let (dst, src, slot) = three_words(arguments)?;
        Some(Op::Get {
            dst: self.register(dst)?,
            src: self.register(src)?,
            slot: byte_below(slot, SLOTS)?,
        })
    }

    /// `put rA K rB`, with a slot
    pub(crate) fn put(&self, arguments: &[u8]) -> Option<Op>
        ensures { result ≡ option_map (λ o. Op.Put o.0 o.1 o.2)
            (three (register_of self.now) (number_below 16) (register_of self.now) (words_in arguments.now)) }
    {
        let (src, slot, val) = three_words(arguments)?;
        Some(Op::Put {
            src: self.register(src)?,
            slot: byte_below(slot, SLOTS)?,
            val: self.register(val)?,
        })
    }

    /// `move rA rB`
    pub(crate) fn move_register(&self, arguments: &[u8]) -> Option<Op>
        ensures { result ≡ option_map (λ o. Op.Move o.0 o.1)
            (two (register_of self.now) (register_of self.now) (words_in arguments.now)) }
    {
        let (dst, src) = two_words(arguments)?;
        Some(Op::Move {
            dst: self.register(dst)?,
            src: self.register(src)?,
        })
    }

    /// `set rA N`
    pub(crate) fn set(&self, arguments: &[u8]) -> Option<Op>
        ensures { result ≡ option_map (λ o. Op.Set o.0 o.1)
            (two (register_of self.now) number_of (words_in arguments.now)) }
    {
        let (dst, n) = two_words(arguments)?;
        Some(Op::Set {
            dst: self.register(dst)?,
            n: number_of(n)?,
        })
    }

    /// `drop rA`
    pub(crate) fn drop_register(&self, arguments: &[u8]) -> Option<Op>
        ensures { result ≡ option_map Op.Drop (one (register_of self.now) (words_in arguments.now)) }
    {
        let dst = self.register(one_word(arguments)?)?;
        Some(Op::Drop { dst })
    }

    /// `claim rA`
    pub(crate) fn claim(&self, arguments: &[u8]) -> Option<Op>
        ensures { result ≡ option_map Op.Claim (one (register_of self.now) (words_in arguments.now)) }
    {
        let src = self.register(one_word(arguments)?)?;
        Some(Op::Claim { src })
    }

    /// `release rA`
    pub(crate) fn release(&self, arguments: &[u8]) -> Option<Op>
        ensures { result ≡ option_map Op.Release (one (register_of self.now) (words_in arguments.now)) }
    {
        let src = self.register(one_word(arguments)?)?;
        Some(Op::Release { src })
    }

    /// `add rA KEY rB`
    pub(crate) fn add(&self, arguments: &[u8]) -> Option<Op>
        ensures { result ≡ option_map (λ o. Op.Add o.0 o.1 o.2)
            (three (register_of self.now) (key_of self.now) (register_of self.now) (words_in arguments.now)) }
    {
        let (src, key, val) = three_words(arguments)?;
        Some(Op::Add {
            src: self.register(src)?,
            key: self.keys.number(key)?,
            val: self.register(val)?,
        })
    }

    /// `getp rA rB KEY`
    pub(crate) fn get_property(&self, arguments: &[u8]) -> Option<Op>
        ensures { result ≡ option_map (λ o. Op.GetProp o.0 o.1 o.2)
            (three (register_of self.now) (register_of self.now) (key_of self.now) (words_in arguments.now)) }
    {
        let (dst, src, key) = three_words(arguments)?;
        Some(Op::GetProp {
            dst: self.register(dst)?,
            src: self.register(src)?,
            key: self.keys.number(key)?,
        })
    }

    /// `setp rA KEY rB`
    pub(crate) fn set_property(&self, arguments: &[u8]) -> Option<Op>
        ensures { result ≡ option_map (λ o. Op.SetProp o.0 o.1 o.2)
            (three (register_of self.now) (key_of self.now) (register_of self.now) (words_in arguments.now)) }
    {
        let (src, key, val) = three_words(arguments)?;
        Some(Op::SetProp {
            src: self.register(src)?,
            key: self.keys.number(key)?,
            val: self.register(val)?,
        })
    }

    /// `strong K rA`, with a strong handle
    pub(crate) fn strong_set(&self, arguments: &[u8]) -> Option<Op>
        ensures { result ≡ option_map (λ o. Op.StrongSet o.0 o.1)
            (two (number_below self.now.strong) (register_of self.now) (words_in arguments.now)) }
    {
        let (at, val) = two_words(arguments)?;
        Some(Op::StrongSet {
            at: number_below(at, self.strong)?,
            val: self.register(val)?,
        })
    }

    /// `sget rA K`, with a strong handle
    pub(crate) fn strong_get(&self, arguments: &[u8]) -> Option<Op>
        ensures { result ≡ option_map (λ o. Op.StrongGet o.0 o.1)
            (two (register_of self.now) (number_below self.now.strong) (words_in arguments.now)) }
    {
        let (dst, at) = two_words(arguments)?;
        Some(Op::StrongGet {
            dst: self.register(dst)?,
            at: number_below(at, self.strong)?,
        })
    }

    /// `weak K rA`, with a weak handle
    pub(crate) fn weak_set(&self, arguments: &[u8]) -> Option<Op>
        ensures { result ≡ option_map (λ o. Op.WeakSet o.0 o.1)
            (two (number_below self.now.weak) (register_of self.now) (words_in arguments.now)) }
    {
        let (at, val) = two_words(arguments)?;
        Some(Op::WeakSet {
            at: number_below(at, self.weak)?,
            val: self.register(val)?,
        })
    }

    /// `wget rA K`, with a weak handle
    pub(crate) fn weak_get(&self, arguments: &[u8]) -> Option<Op>
        ensures { result ≡ option_map (λ o. Op.WeakGet o.0 o.1)
            (two (register_of self.now) (number_below self.now.weak) (words_in arguments.now)) }
    {
        let (dst, at) = two_words(arguments)?;
        Some(Op::WeakGet {
            dst: self.register(dst)?,
            at: number_below(at, self.weak)?,
        })
    }

    /// `pair rA rB rC`
    pub(crate) fn pair_set(&self, arguments: &[u8]) -> Option<Op>
        ensures { result ≡ option_map (λ o. Op.PairSet o.0 o.1 o.2)
            (three (register_of self.now) (register_of self.now) (register_of self.now) (words_in arguments.now)) }
    {
        let (src, key, val) = three_words(arguments)?;
        Some(Op::PairSet {
            src: self.register(src)?,
            key: self.register(key)?,
            val: self.register(val)?,
        })
    }

    /// `pget rA rB rC`
    pub(crate) fn pair_get(&self, arguments: &[u8]) -> Option<Op>
        ensures { result ≡ option_map (λ o. Op.PairGet o.0 o.1 o.2)
            (three (register_of self.now) (register_of self.now) (register_of self.now) (words_in arguments.now)) }
    {
        let (dst, src, key) = three_words(arguments)?;
        Some(Op::PairGet {
            dst: self.register(dst)?,
            src: self.register(src)?,
            key: self.register(key)?,
        })
    }

    /// `pdel rA rB`
    pub(crate) fn pair_delete(&self, arguments: &[u8]) -> Option<Op>
        ensures { result ≡ option_map (λ o. Op.PairDel o.0 o.1)
            (two (register_of self.now) (register_of self.now) (words_in arguments.now)) }
    {
        let (src, key) = two_words(arguments)?;
        Some(Op::PairDel {
            src: self.register(src)?,
            key: self.register(key)?,
        })
    }

    /// `group rA N`
    pub(crate) fn group(&self, arguments: &[u8]) -> Option<Op>
        ensures { result ≡ option_map (λ o. Op.Group o.0 o.1)
            (two (register_of self.now) number_of (words_in arguments.now)) }
    {
        let (src, n) = two_words(arguments)?;
        Some(Op::Group {
            src: self.register(src)?,
            n: number_of(n)?,
        })
    }
}

/// How many classes of cells with slots there are.
const CLASSES: u8 = 4;

/// How many slots the largest of these classes has.
const SLOTS: u8 = 16;
