//! The folder in which a log is published.

use crate::folders::path_of_tile;
use crate::followers::checkpoint_name;
use crate::reading::is_there;
use crate::stop::Stop;
use crate::store::folder_of;
use crate::writing::{sync_above, sync_way, write_whole};
use log_file::fault::Fault;
use log_tiles::{FileName, Folder};
use std::fs;

/// A folder of tiles and a checkpoint. That its calls do what `Folder` says is trusted.
#[derive(Drop)]
pub struct PublishedFolder<'a> {
    rt: &'a HostRuntime,
    folder: &'a str,
    // the last file that was written or found: the names in its folder are perhaps not on the disk
    last: Option<String>,
    // whether the folder's own name is on the disk
    is_named: bool,
}

impl<'a> PublishedFolder<'a> {
    /// Borrows the path of a folder that is there.
    pub fn new(rt: &'a HostRuntime, folder: &'a str) -> PublishedFolder<'a> {
        PublishedFolder {
            rt,
            folder,
            last: None,
            is_named: false,
        }
    }

    fn path_of(&self, name: FileName) -> Result<String, Stop> {
        match name {
            FileName::OfTile(tile) => match path_of_tile(self.rt.alloc(), self.folder, tile) {
                Ok(path) => Ok(path),
                Err(_) => Err(Stop::Fault(Fault::Memory)),
            },
            FileName::Checkpoint => checkpoint_name(self.rt, self.folder),
        }
    }

    // Whether a file lies where the last one does.
    fn is_beside_last(&self, path: &str) -> bool {
        match &self.last {
            Some(last) => folder_of(last.as_str()) == folder_of(path),
            None => false,
        }
    }

    // Syncs the names on the way to the last file.
    fn sync_last(&mut self) -> Result<(), Stop> {
        if let Some(last) = &self.last {
            sync_way(self.rt, self.folder, last.as_str())?;
        }
        self.last = None;
        Ok(())
    }

    // Begins with a file: the names on the way to the one before are synced first, where it lies elsewhere.
    fn turn_to(&mut self, path: &str) -> Result<(), Stop> {
        if !self.is_beside_last(path) {
            self.sync_last()?;
        }
        Ok(())
    }
}

impl<'a> Folder for PublishedFolder<'a> {
    type Refusal = Stop;

    ghost Obeys = { λ _. ⊥ };

    ghost may_leave = { λ _ _. ⊥ };

    ghost written = { λ _ _ _. ⊥ };

    ghost moment = { λ _. 0 };

    ghost left_since = { λ _ _ _. ⊥ };

    ghost only_now = { λ _ _ since. since };

    fn write(&mut self, name: FileName, bytes: &[u8]) -> Result<(), Stop> {
        let path = self.path_of(name)?;
        if !self.is_beside_last(path.as_str()) {
            self.turn_to(path.as_str())?;
            fs::create_dir_all(self.rt, folder_of(path.as_str()))?;
        }
        write_whole(self.rt, path.as_str(), bytes)?;
        self.last = Some(path);
        Ok(())
    }

    fn find(&mut self, name: FileName, count: usize) -> Result<bool, Stop> {
        let path = self.path_of(name)?;
        if !is_there(self.rt, path.as_str(), count)? {
            return Ok(false);
        }
        self.turn_to(path.as_str())?;
        self.last = Some(path);
        Ok(true)
    }

    fn sync(&mut self) -> Result<(), Stop> {
        self.sync_last()?;
        if !self.is_named {
            sync_above(self.rt, self.folder)?;
            self.is_named = true;
        }
        Ok(())
    }
}
