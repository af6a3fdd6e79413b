//! Connections to the server.

use client_folder::messages::remark;
use client_session::Dialer;
use client_words::counting_number;
use std::io::{self, ErrorKind};
use std::net::{Net, OpenStream, TcpStream, ToSocketAddrs};
use std::thread;
use std::time::Duration;

/// What connects to a server: its host and port, how long a call may take, and whether somebody looks on.
#[derive(Drop)]
pub struct TcpDialer<'a> {
    pub rt: &'a HostRuntime,
    pub host: String,
    pub port: u16,
    pub timeout: Duration,
    pub is_watched: bool,
}

/// The host and the port of `HOST:PORT`; none if the text is none.
pub fn address_of(server: &str) -> Option<(&str, u16)> {
    let (host, digits) = server.rsplit_once(':')?;
    let port = match u16::try_from(counting_number(digits.as_bytes())?) {
        Ok(port) => port,
        Err(_) => return None,
    };
    if host.is_empty() {
        return None;
    }
    Some((
        host.trim_matches(|letter| letter == '[' || letter == ']'),
        port,
    ))
}

fn set_up<S: OpenStream>(stream: &S, timeout: Duration) -> io::Result<()> {
    let _ = stream.set_nodelay(true);
    stream.set_read_timeout(Some(timeout))?;
    stream.set_write_timeout(Some(timeout))
}

impl<'a> Dialer for TcpDialer<'a> {
    type Link = <HostRuntime as Net>::Stream;

    fn dial(&mut self) -> io::Result<<HostRuntime as Net>::Stream> {
        let mut last = io::Error::from(ErrorKind::NotFound);
        for address in (self.host.as_str(), self.port).to_socket_addrs(self.rt)? {
            match TcpStream::connect_timeout(self.rt, &address, self.timeout) {
                Ok(stream) => {
                    set_up(&stream, self.timeout)?;
                    return Ok(stream);
                }
                Err(fault) => last = fault,
            }
        }
        Err(last)
    }

    fn pause(&self, milliseconds: u64) {
        thread::sleep(self.rt, Duration::from_millis(milliseconds));
    }

    fn remark(&self, words: &str) {
        remark(self.rt, self.is_watched, words);
    }
}
