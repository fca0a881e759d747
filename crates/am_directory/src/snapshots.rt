ghost use Rattle.std.specs.Prelude.{◌≡◌, ◌≤◌, length, IfOk, None};
ghost use Rattle.am_service_defs.specs.Contents.{most_keys};
ghost use Rattle.am_service_defs.specs.Snapshots.{most_snapshot, snapshot_of, snapshot_in, settings_in};

use crate::directory::Directory;
use crate::restoring::{head_in, setting_in};
use crate::spelling::{push_head, push_setting};
use am_base::NoMemory;
use std::alloc::Global;

impl Directory {
    /// The snapshot for the name whose Join has this number: at most 26,119 bytes. It is an error where there is no memory for it.
    pub fn snapshot(&self, alloc: Global, join: u32) -> Result<Vec<u8>, NoMemory>
        ensures value { IfOk result (λ bytes. bytes.items ≡ snapshot_of self.now join) }
        ensures fits { IfOk result (λ bytes. length bytes.items ≤ most_snapshot) }
    {
        let mut bytes = Vec::new(alloc);
        push_head(&mut bytes, join, self.len())?;
        for (key, setting) in self.iter() {
            push_setting(&mut bytes, key.as_slice(), setting)?;
        }
        Ok(bytes)
    }

    /// The directory of so many keys, with nothing after them; None where there is none.
    fn restore_keys(alloc: Global, count: u32, bytes: &[u8]) -> Result<Option<Directory>, NoMemory>
        requires { count ≤ most_keys }
        ensures { IfOk result (λ found. found ≡ settings_in count None bytes.now) }
    {
        let mut directory = Directory::new(alloc);
        let mut last = None;
        let mut rest = bytes;
        for _ in 0..count {
            let Some(read) = setting_in(last, rest) else {
                return Ok(None);
            };
            directory.set(read.key, read.setting)?;
            last = Some(read.key);
            rest = read.rest;
        }
        Ok(if rest.is_empty() {
            Some(directory)
        } else {
            None
        })
    }

    /// The number of the Join that bytes are a snapshot for, and a directory of its contents; None exactly where they are no
    /// snapshot. It is an error where there is no memory for the directory.
    pub fn restore(alloc: Global, bytes: &[u8]) -> Result<Option<(u32, Directory)>, NoMemory>
        ensures { IfOk result (λ found. found ≡ snapshot_in bytes.now) }
    {
        let Some(head) = head_in(bytes) else {
            return Ok(None);
        };
        match Directory::restore_keys(alloc, head.count, head.rest)? {
            Some(directory) => Ok(Some((head.join, directory))),
            None => Ok(None),
        }
    }
}
