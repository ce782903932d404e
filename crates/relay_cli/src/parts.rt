//! The authorities that a run asks, over the tables of a folder.

use at_cid::Memory;
use os_edge::{FileAuthority, Reporter, names_host, path_in};

/// The tables of authorities, by method, in the order in which they are asked.
pub const TABLES: [(&str, &str); 4] = [
    ("plc", "plc.1"),
    ("plc", "plc.2"),
    ("web", "web.1"),
    ("web", "web.2"),
];

/// The names of these tables.
const TABLE_NAMES: [&str; 4] = ["plc.1", "plc.2", "web.1", "web.2"];

/// The authority over a table of the folder, which is read at the first question.
pub fn authority_in(reporter: Reporter, folder: &str, name: &str) -> Result<FileAuthority, Memory> {
    let alloc = reporter.rt().alloc();
    Ok(FileAuthority::new(*reporter.rt(), alloc, path_in(alloc, folder, name)?))
}

/// Says so where no table of the folder names the host as a home: then all of its commits will be
/// refused, and its cursor moves past them.
pub fn remark_on_stranger(reporter: Reporter, folder: &str, host: &str) -> Result<(), Memory> {
    let rt = reporter.rt();
    if !names_host(rt.alloc(), rt, folder, &TABLE_NAMES, host)? {
        let why =
            "no table names this host as a home: its commits will be refused, and its cursor moves past them";
        reporter.remark(host, &why);
    }
    Ok(())
}
