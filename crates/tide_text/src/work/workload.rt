//! A workload within its limits. It does not know whether it was read or made.
use crate::work::keys::{Keys, MAX_KEY_BYTES, MAX_KEYS};
use crate::work::settings::Settings;
use std::alloc::Global;
use std::marker::Model;
use tide_model::Op;
use tide_shape::Paths;

/// How many mutators a workload may have.
pub const MAX_MUTATORS: usize = 16;

/// How many operations a mutator may have.
pub const MAX_OPS: usize = 65_536;

/// A workload: its settings, its property keys and the declared paths of them, and the operations of each mutator in
/// order.
#[derive(Drop)]
pub struct Workload {
    settings: Settings,
    keys: Keys,
    paths: Paths,
    scripts: Vec<Vec<Op>>,
}

impl Model for Workload {
    ghost use Rattle.std.specs.Prelude.{map};
    ghost use Rattle.tide_text.specs.work.Work.{Work, IsWork};

    ghost Value = { Work };

    ghost view = { λ w. record {
      settings = w.settings;
      keys = w.keys;
      paths = w.paths;
      scripts = map (λ v. v.items) w.scripts.items;
    } };

    ghost invariant = { λ w. IsWork (record {
      settings = w.settings;
      keys = w.keys;
      paths = w.paths;
      scripts = map (λ v. v.items) w.scripts.items;
    }) };
}

impl Workload {
    ghost use Rattle.std.specs.Prelude.{◌≡◌, ◌≢◌, ◌<◌, ◌≤◌, [], Some, true, length, map, slice_get, All, AllPairs};
    ghost use Rattle.tide_text.specs.work.Keys.{is_key};
    ghost use Rattle.tide_text.specs.work.OpArguments.{limits_with};
    ghost use Rattle.tide_text.specs.work.Work.{AreOperations, ArePaths, AreSettings, IsBetween, IsOperation, IsSized, IsWork, limits_of};

    /// A workload of parts that are within its limits.
    pub fn new(settings: Settings, keys: Keys, paths: Paths, scripts: Vec<Vec<Op>>) -> Workload
        requires { IsWork (record {
          settings = settings;
          keys = keys;
          paths = paths;
          scripts = map (λ v. v.items) scripts.items;
        }) }
        ensures { result ≡ record {
          settings = settings;
          keys = keys;
          paths = paths;
          scripts = map (λ v. v.items) scripts.items;
        } }
    {
        Workload {
            settings,
            keys,
            paths,
            scripts,
        }
    }

    /// The workload with these settings and operations, those of one mutator a list. It declares no path, so no
    /// operation on properties is among them. It takes no memory, and refuses nothing.
    pub fn of(alloc: Global, settings: Settings, ops: Vec<Vec<Op>>) -> Workload
        requires limits { AreSettings settings }
        requires sized { IsSized (map (λ own. own.items) ops.items) }
        requires operations { AreOperations (limits_with settings []) (map (λ own. own.items) ops.items) }
        ensures { result ≡ record {
          settings = settings;
          keys = [];
          paths = [];
          scripts = map (λ own. own.items) ops.items;
        } }
    {
        Workload::new(settings, Keys::new(alloc), Paths::new(alloc), ops)
    }

    /// Its numbers.
    pub fn settings(&self) -> Settings
        ensures value { result ≡ self.now.settings }
        ensures within { AreSettings result }
    {
        self.settings
    }

    /// The paths of property keys that it declares.
    pub fn paths(&self) -> &Paths
        ensures paths { result.now ≡ self.now.paths }
        ensures within { ArePaths (length self.now.keys) result.now }
    {
        &self.paths
    }

    /// How many property keys it has, no two of which have the same name.
    pub fn key_count(&self) -> u32
        ensures count { result ≡ length self.now.keys }
        ensures few { result ≤ MAX_KEYS }
        ensures distinct { AllPairs (λ earlier later. earlier ≢ later) self.now.keys }
    {
        self.keys.len()
    }

    /// The name of a property key: a letter from a to z, and then letters, digits and `_`.
    pub fn key_name(&self, key: u32) -> &[u8]
        requires { key < length self.now.keys }
        ensures name { slice_get self.now.keys key ≡ Some result.now }
        ensures key { is_key result.now ≡ true }
        ensures sized { IsBetween 1 MAX_KEY_BYTES (length result.now) }
    {
        self.keys.name(key)
    }

    /// The names of its property keys.
    pub fn keys(&self) -> &Keys
        ensures { result.now ≡ self.now.keys }
    {
        &self.keys
    }

    /// How many mutators it has.
    pub fn mutators(&self) -> u32
        ensures count { result ≡ length self.now.scripts }
        ensures some { 1 ≤ result }
        ensures few { result ≤ MAX_MUTATORS }
    {
        self.scripts.len() as u32
    }

    /// The operations of a mutator, in order.
    pub fn ops(&self, m: u32) -> &[Op]
        requires { m < length self.now.scripts }
        ensures script { slice_get self.now.scripts m ≡ Some result.now }
        ensures short { length result.now ≤ MAX_OPS }
        ensures within { All (IsOperation (limits_of self.now)) result.now }
    {
        self.scripts[m as usize].as_slice()
    }
}
