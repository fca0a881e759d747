ghost use Rattle.std.specs.Prelude.{◌≡◌, ◌≤◌, [], length, IfOk, OnOk, OnErr, Vec, ℕ, IsTrue, ◌⊎◌};
ghost use Rattle.std.specs.Option.{option_copied};
ghost use Rattle.std.specs.Map.Iter.{ShowsInOrder, deref_pair};
ghost use Rattle.am_service_defs.specs.declared.setting.Setting.{Setting};
ghost use Rattle.am_service_defs.specs.Contents.{most_keys, IsDirectory, applied, body_answer, setting_of, has_key, contents_has_room, with_setting, without_key};
ghost use Rattle.am_service_defs.specs.Commands.{Put, Claim, IsCommand};
ghost use Rattle.am_directory.specs.Kept.{contents_in, Obeys};
ghost use Rattle.am_directory.specs.Reading.{command_from};
ghost use Rattle.am_service_defs.specs.Values.{IsKey, IsValue};

use crate::command::Command;
use am_base::NoMemory;
use am_service_defs::applied::Applied;
use am_service_defs::setting::{Setting, ValueBytes};
use std::alloc::Global;
use std::collections::BTreeMap;
use std::collections::btree_map::Iter;
use std::marker::Model;

/// How many keys a directory has at most.
const MOST_KEYS: usize = 256;

/// A directory: at most 256 keys in the order of their bytes, each with its value and the number of the entry that set it last
/// (docs/DIRECTORY.md, "Contents"). Contracts see it as the list of these.
#[derive(Drop)]
pub struct Directory {
    alloc: Global,
    map: BTreeMap<Vec<u8>, Setting>,
}

impl Model for Directory {
    ghost use Rattle.am_service_defs.specs.Contents.{Contents, IsDirectory};
    ghost use Rattle.am_directory.specs.Kept.{contents_in};

    ghost Value = { Contents };

    ghost view = { λ d. contents_in d.map.entries };

    ghost invariant = { λ d. IsDirectory (contents_in d.map.entries) };
}

impl Directory {
    /// A directory without keys, whose memory is from here.
    pub fn new(alloc: Global) -> Directory
        ensures { result ≡ [] }
    {
        Directory {
            alloc,
            map: BTreeMap::new(alloc),
        }
    }

    /// What a key has, where it is there.
    pub fn get(&self, key: &[u8]) -> Option<&Setting>
        ensures { option_copied result ≡ setting_of self.now key.now }
    {
        self.map.get(key)
    }

    /// Whether a key is there.
    fn has_key(&self, key: &[u8]) -> bool
        ensures { result ≡ has_key self.now key.now }
    {
        self.get(key).is_some()
    }

    /// How many keys it has.
    pub fn len(&self) -> usize
        ensures len { result ≡ length self.now }
        ensures few { result ≤ most_keys }
    {
        self.map.len()
    }

    /// Whether there is room for a key more.
    fn has_room(&self) -> bool
        ensures { result ≡ contents_has_room self.now }
    {
        self.len() < MOST_KEYS
    }

    /// Its keys in order, each with what it has.
    pub fn iter(&self) -> Iter<'_, Vec<u8>, Setting>
        ensures rest { contents_in result ≡ self.now }
        ensures within { IsDirectory self.now }
        ensures runs { ShowsInOrder (deref_pair {K = Vec ℕ Global} {X = Setting}) }
    {
        self.map.iter()
    }

    /// A key gets what stands in a command or a snapshot. It is an error where there is no memory for the key; then nothing has changed.
    pub(crate) fn set(&mut self, key: &[u8], setting: Setting) -> Result<(), NoMemory>
        requires key { IsKey key.now }
        requires value { IsValue setting.value }
        requires room { IsTrue (has_key self.old key.now) ⊎ IsTrue (contents_has_room self.old) }
        ensures set { OnOk result (self.new ≡ with_setting self.old key.now setting) }
        ensures err { OnErr result (self.new ≡ self.old) }
    {
        let key = Vec::from_slice(self.alloc, key)?;
        self.map.insert(key, setting)?;
        Ok(())
    }

    /// A key goes, where it is there.
    fn remove(&mut self, key: &[u8]) -> bool
        ensures was { result ≡ has_key self.old key.now }
        ensures removed { self.new ≡ without_key self.old key.now }
    {
        self.map.remove(key).is_some()
    }

    /// A Put of a command that is within its limits.
    fn put(&mut self, number: u32, key: &[u8], value: &[u8]) -> Result<Applied, NoMemory>
        requires { IsCommand (Put key.now value.now) }
        ensures { Obeys self.old number (Put key.now value.now) result self.new }
    {
        let was_there = self.has_key(key);
        if !was_there && !self.has_room() {
            return Ok(Applied::Full);
        }
        let value = ValueBytes::of(value).unwrap();
        self.set(key, Setting { number, value })?;
        Ok(if was_there {
            Applied::Replaced
        } else {
            Applied::Put
        })
    }

    /// A Claim of a command that is within its limits.
    fn claim(&mut self, number: u32, key: &[u8], value: &[u8]) -> Result<Applied, NoMemory>
        requires { IsCommand (Claim key.now value.now) }
        ensures { Obeys self.old number (Claim key.now value.now) result self.new }
    {
        if self.has_key(key) {
            return Ok(Applied::Kept);
        }
        if !self.has_room() {
            return Ok(Applied::Full);
        }
        let value = ValueBytes::of(value).unwrap();
        self.set(key, Setting { number, value })?;
        Ok(Applied::Claimed)
    }

    /// Applies a command that is within its limits.
    fn apply_command(&mut self, number: u32, command: &Command) -> Result<Applied, NoMemory>
        requires { IsCommand (command_from command.now) }
        ensures { Obeys self.old number (command_from command.now) result self.new }
    {
        match command {
            Command::Put { key, value } => self.put(number, key, value),
            Command::Delete { key } => Ok(if self.remove(key) {
                Applied::Deleted
            } else {
                Applied::Absent
            }),
            Command::Claim { key, value } => self.claim(number, key, value),
        }
    }

    /// Applies the body of the entry of a number. It is an error where there is no memory for a key; then nothing has changed.
    pub fn apply(&mut self, number: u32, body: &[u8]) -> Result<Applied, NoMemory>
        ensures answer { IfOk result (λ answer. answer ≡ body_answer self.old body.now) }
        ensures applied { OnOk result (self.new ≡ applied self.old number body.now) }
        ensures err { OnErr result (self.new ≡ self.old) }
    {
        match Command::read(body) {
            Some(command) => self.apply_command(number, &command),
            None => Ok(Applied::NoCommand),
        }
    }
}
