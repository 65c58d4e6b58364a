//! The list of the files in a server's folder, by which a start knows files that are missing, were
//! emptied or are those of another folder.
#![tactic(auto)]

mod digits;
mod fault;
mod file;
mod laws;
mod list;
mod listed_store;
mod lister;
mod name;

pub use fault::{FileFault, ListFault};
pub use file::ListedFile;
pub use laws::changed_first_bytes_are_found;
pub use list::{FolderList, head_text, read_list};
pub use listed_store::ListedStore;
pub use lister::{LIST, Lister};
pub use name::FileName;
