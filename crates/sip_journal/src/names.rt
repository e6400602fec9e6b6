//! Names of clients: those of their connections, or those of their logins.

use log_pairs::Direction;
use std::alloc::{AllocError, Global};
use std::collections::BTreeMap;

/// The names of the clients that logged in, by their connections.
#[derive(Drop)]
pub struct ClientNames {
    alloc: Global,
    is_by_login: bool,
    by_connection: BTreeMap<Vec<u8>, Vec<u8>>,
}

impl ClientNames {
    pub fn new(alloc: Global, is_by_login: bool) -> ClientNames {
        ClientNames {
            alloc,
            is_by_login,
            by_connection: BTreeMap::new(alloc),
        }
    }

    /// Whether a login names clients.
    pub fn is_by_login(&self) -> bool {
        self.is_by_login
    }

    /// The name of who sends or gets a message on a connection: that of the connection before the
    /// first login. A request with a login (93) gives the name.
    pub fn name(
        &mut self,
        connection: &[u8],
        side: Direction,
        message: &[u8],
    ) -> Result<Vec<u8>, AllocError> {
        if self.is_by_login && matches!(side, Direction::Request) && message.starts_with(b"93") {
            if let Some(name) = login_of(self.alloc, message)? {
                let key = Vec::from_slice(self.alloc, connection)?;
                self.by_connection.insert(key, name)?;
            }
        }
        match self.by_connection.get(connection) {
            Some(name) => Vec::from_slice(self.alloc, name),
            None => Vec::from_slice(self.alloc, connection),
        }
    }

    /// Nothing more comes of a connection.
    pub fn over(&mut self, connection: &[u8]) {
        self.by_connection.remove(connection);
    }
}

/// The user of a login (CN), and its place after an @ if it has one (CP).
fn login_of(alloc: Global, message: &[u8]) -> Result<Option<Vec<u8>>, AllocError> {
    let Some(user) = field(message, b"CN") else {
        return Ok(None);
    };
    let mut name = Vec::from_slice(alloc, user)?;
    match field(message, b"CP") {
        None | Some([]) => {}
        Some(place) => {
            name.push(b'@')?;
            name.extend_from_slice(place)?;
        }
    }
    Ok(Some(name))
}

/// The text of a field of a login, which begins after two bytes that name algorithms.
fn field<'m>(message: &'m [u8], code: &[u8]) -> Option<&'m [u8]> {
    for field in message.get(4..)?.split(|byte| *byte == b'|') {
        if let Some(text) = field.strip_prefix(code) {
            return Some(text);
        }
    }
    None
}
