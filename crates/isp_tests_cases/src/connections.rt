//! Connections with what is sent on them: messages to a server, one after another.
//!
//! A record is the lines from `=== ` and its name on. Each line begins with a word that says what it is:
//!
//! - `.` how what is sent was found, for the reader alone;
//! - `says` the content of a message to the server;
//! - `hears` the text of a message that the server sends after it;
//! - `ends` the status with which the server ends after it.
//!
//! After each message all that is sent stands in the record, in its order.
use isp_base::Gang;
use isp_server::{Next, Server};
use isp_tests_programs::Tried;
use std::alloc::{AllocError, Global};

/// A connection: what was sent on it, and what its record says.
#[derive(Drop)]
struct Connection {
    server: Server,
    heard: String,
    wanted: String,
}

/// Tries the records of a file.
pub(crate) fn follow(alloc: Global, text: &str, tried: &mut Tried) -> Result<(), AllocError> {
    for record in text.split("=== ").skip(1) {
        tried.begin();
        if let Some(difference) = difference(alloc, record)? {
            tried.differ(difference)?;
        }
    }
    Ok(())
}

// In what a record does not go as it says, if it does not.
fn difference(alloc: Global, record: &str) -> Result<Option<String>, AllocError> {
    let mut connection = Connection::new(alloc);
    let mut lines = record.split('\n');
    let name = lines.next().unwrap_or("");
    for line in lines {
        connection.follow(alloc, line)?;
    }
    if connection.heard.as_str() == connection.wanted.as_str() {
        return Ok(None);
    }
    let difference = format!(in alloc; "{name}:\n{}", connection.heard)?;
    Ok(Some(difference))
}

impl Connection {
    fn new(alloc: Global) -> Connection {
        Connection {
            server: Server::new(alloc, Gang::W16, "1.2.3"),
            heard: String::new(alloc),
            wanted: String::new(alloc),
        }
    }

    // Takes a line of the record.
    fn follow(&mut self, alloc: Global, line: &str) -> Result<(), AllocError> {
        let (word, rest) = line.split_once(' ').unwrap_or(("", ""));
        match word {
            "says" => self.say(alloc, rest),
            "hears" => push_line(&mut self.wanted, rest),
            "ends" => push_line(&mut self.wanted, line),
            _ => Ok(()),
        }
    }

    // Hands a message to the server.
    fn say(&mut self, alloc: Global, content: &str) -> Result<(), AllocError> {
        push_line(&mut self.heard, "says")?;
        push_line(&mut self.wanted, "says")?;
        let reply = self.server.answer(alloc, content.as_bytes())?;
        for message in &reply.messages {
            push_line(&mut self.heard, message.to_string(alloc)?.as_str())?;
        }
        if let Next::End(status) = reply.next {
            let end = format!(in alloc; "ends {status}")?;
            push_line(&mut self.heard, end.as_str())?;
        }
        Ok(())
    }
}

fn push_line(text: &mut String, line: &str) -> Result<(), AllocError> {
    text.push_str(line)?;
    text.push_str("\n")
}
