//! Where a server's logs are: in memory, or in the files of a folder.
use crate::fault::ServeFault;
use crate::files::LogFile;
use crate::listing::{FolderFile, list_files};
use kx_files::{FileStore, SummedStore, SumsFault};
use kx_folder::{ListedStore, Lister};
use kx_log::{MemStore, OpenFault, Store, StoreFault};
use std::alloc::{AllocError, Global};
use std::fs;
use std::fs::{File, Files};
use std::io::ErrorKind;

/// Where a server's logs are kept.
pub(crate) trait Folder: Drop {
    type Kept: Store + Send + Sync + 'static;

    /// The store of a log, which is made if there is none.
    fn store(&self, alloc: Global, file: LogFile) -> Result<Self::Kept, ServeFault>;

    /// Whether the store of a log was made before.
    fn has(&self, alloc: Global, file: LogFile) -> Result<bool, AllocError>;

    /// How many bytes the store of a log has.
    fn len(&self, alloc: Global, file: LogFile) -> Result<u64, ServeFault>;

    /// The bytes of a log; none if there is no store of it.
    fn bytes(&self, alloc: Global, file: LogFile) -> Result<Vec<u8>, ServeFault>;

    /// Lists the files that have bytes and aren't listed, once all logs are opened.
    fn list_files(&self) -> Result<(), ServeFault>;

    /// Tells whoever runs the server what is odd about a log.
    fn warn(&self, file: LogFile, words: &str);
}

/// In memory, with nothing in them.
#[derive(Drop)]
pub(crate) struct InMemory;

impl Folder for InMemory {
    type Kept = MemStore;

    fn store(&self, alloc: Global, _file: LogFile) -> Result<MemStore, ServeFault> {
        Ok(MemStore::new(Vec::new(alloc)))
    }

    fn has(&self, _alloc: Global, _file: LogFile) -> Result<bool, AllocError> {
        Ok(false)
    }

    fn len(&self, _alloc: Global, _file: LogFile) -> Result<u64, ServeFault> {
        Ok(0)
    }

    fn bytes(&self, alloc: Global, _file: LogFile) -> Result<Vec<u8>, ServeFault> {
        Ok(Vec::new(alloc))
    }

    fn list_files(&self) -> Result<(), ServeFault> {
        Ok(())
    }

    fn warn(&self, _file: LogFile, _words: &str) {}
}

/// In the files of a folder.
#[derive(Drop)]
pub(crate) struct InFiles<'a, R: Drop> {
    pub(crate) rt: R,
    pub(crate) dir: &'a str,
    /// the folder's number, by the list of its files
    pub(crate) number: u64,
    pub(crate) tells_progress: bool,
}

impl<'a, R: Files<File = File> + AllocGlobal + Eprint + Drop> InFiles<'a, R> {
    // Reports that a log is opened, which may take a while.
    fn tell(&self, path: &str) {
        if let Ok(held) = fs::metadata(&self.rt, path) {
            // Whoever watches sees no more than that.
            let _ = eprintln!(self.rt; "opening {path}, {} bytes", held.len());
        }
    }

    // The store of a log, compared with the checksums beside it.
    fn summed(&self, alloc: Global, file: LogFile) -> Result<SummedStore<File>, ServeFault> {
        let path = file.path_in(alloc, self.dir)?;
        let sums = format!(in alloc; "{}/co.sum", self.dir)?;
        match SummedStore::open(&self.rt, path.as_str(), sums.as_str()) {
            Ok(store) => {
                self.warn_of_unsummed(file, &store);
                Ok(store)
            }
            Err(fault) => Err(fault_of_sums(file, fault)),
        }
    }

    // The store of a log, of which no checksums are kept.
    fn plain(&self, alloc: Global, file: LogFile) -> Result<SummedStore<File>, ServeFault> {
        let path = file.path_in(alloc, self.dir)?;
        match FileStore::open(&self.rt, path.as_str()) {
            Ok(store) => Ok(SummedStore::plain(store)),
            Err(StoreFault::Memory) => Err(ServeFault::Memory),
            Err(StoreFault::Device) => Err(fault_in(file, OpenFault::Device)),
        }
    }

    // Who adds a log to the list; None if the list can't be opened, and then the log isn't listed.
    fn lister(&self, alloc: Global, file: LogFile) -> Option<Lister> {
        let name = FolderFile::Log(file).name(alloc).ok()?;
        Lister::in_folder(&self.rt, self.dir, self.number, name).ok()
    }

    // Warns of bytes of a log that have no checksum: what was changed of them can't be known.
    fn warn_of_unsummed(&self, file: LogFile, store: &SummedStore<File>) {
        let len = store.len();
        let summed = store.summed().unwrap_or(0);
        if summed < len {
            // Nobody may watch.
            let _ = eprintln!(self.rt;
                "{file}: the bytes from {summed} up to {len} have no checksum, and are taken as they are"
            );
        }
    }
}

// A fault of the checksums of the log in this file.
fn fault_of_sums(file: LogFile, fault: SumsFault) -> ServeFault {
    match fault {
        SumsFault::Memory => ServeFault::Memory,
        SumsFault::Device => fault_in(file, OpenFault::Device),
        SumsFault::Sums => ServeFault::Sums { file },
        SumsFault::Differs(fault) => ServeFault::Changed { file, fault },
    }
}

impl<'a, R: Files<File = File> + AllocGlobal + Eprint + Drop> Folder for InFiles<'a, R> {
    type Kept = ListedStore;

    fn store(&self, alloc: Global, file: LogFile) -> Result<ListedStore, ServeFault> {
        let path = file.path_in(alloc, self.dir)?;
        if self.tells_progress {
            self.tell(path.as_str());
        }
        let store = match file {
            LogFile::Coordinator => self.summed(alloc, file)?,
            LogFile::Partition(_) | LogFile::Offsets => self.plain(alloc, file)?,
        };
        Ok(ListedStore::new(store, self.lister(alloc, file)))
    }

    fn has(&self, alloc: Global, file: LogFile) -> Result<bool, AllocError> {
        let path = file.path_in(alloc, self.dir)?;
        Ok(fs::metadata(&self.rt, path.as_str()).is_ok())
    }

    fn len(&self, alloc: Global, file: LogFile) -> Result<u64, ServeFault> {
        let path = file.path_in(alloc, self.dir)?;
        match fs::metadata(&self.rt, path.as_str()) {
            Ok(held) => Ok(held.len()),
            Err(_) => Err(fault_in(file, OpenFault::Device)),
        }
    }

    fn bytes(&self, alloc: Global, file: LogFile) -> Result<Vec<u8>, ServeFault> {
        let path = file.path_in(alloc, self.dir)?;
        match fs::read(&self.rt, path.as_str()) {
            Ok(bytes) => Ok(bytes),
            Err(error) => match error.kind() {
                ErrorKind::NotFound => Ok(Vec::new(alloc)),
                ErrorKind::OutOfMemory => Err(ServeFault::Memory),
                _ => Err(fault_in(file, OpenFault::Device)),
            },
        }
    }

    fn list_files(&self) -> Result<(), ServeFault> {
        list_files(&self.rt, self.dir)
    }

    fn warn(&self, file: LogFile, words: &str) {
        // Nobody may watch.
        let _ = eprintln!(self.rt; "{file}: {words}");
    }
}

/// A fault of opening the log in this file.
pub(crate) fn fault_in(file: LogFile, fault: OpenFault) -> ServeFault {
    match fault {
        OpenFault::Memory => ServeFault::Memory,
        fault => ServeFault::Open { file, fault },
    }
}
