//! The sockets of a gateway. Only 127.0.0.1 is bound.

use crate::front::Bound;
use libc::fchmod;
use libc::net::{SO_RCVBUF, SOL_SOCKET, getsockopt, listen, setsockopt};
use mio::event::Source;
use mio::net::{TcpListener, UdpSocket, UnixListener};
use mio::{Interest, Poll, Token};
use rohc_gateway_file::{Config, Group, LinkNote};
use rohc_text::Reason;
use std::alloc::Global;
use std::fs::Permissions;
use std::io::ErrorKind;
use std::net::{Ipv4Addr, Net, SocketAddr};
use std::os::fd::{AsFd, AsRawFd, OwnedFd};
use std::os::unix;
use std::os::unix::fs::PermissionsExt;
use std::rt::Files;
use std::{fmt, fs, io};

/// How many connections there may be at a time.
pub(crate) const MOST_CONNECTIONS: usize = 16;

/// How many connections may wait at the control socket.
const WAITING_CONNECTIONS: i32 = 128;

/// The token of the port for datagrams. Tokens below `MOST_CONNECTIONS` are those of connections.
pub(crate) const PLAIN: Token = Token(100);

/// The token of the port for timed datagrams.
pub(crate) const TIMED: Token = Token(101);

/// The token of the control socket.
pub(crate) const CONTROL: Token = Token(102);

/// The token of the metrics port.
pub(crate) const METRICS: Token = Token(103);

/// The tokens of the links' own ports follow this one: each is that of its port.
pub(crate) const LINKS: usize = 1000;

/// The socket of a link's own port.
#[derive(Drop)]
pub(crate) struct LinkSocket {
    pub(crate) link: u16,
    pub(crate) port: u16,
    pub(crate) socket: UdpSocket,
    /// Whether more may wait there.
    pub(crate) is_waiting: bool,
}

impl LinkSocket {
    /// The socket and its port.
    pub(crate) fn bound(&self) -> Bound<'_> {
        Bound {
            port: self.port,
            socket: &self.socket,
        }
    }
}

/// The sockets of a gateway.
#[derive(Drop)]
pub(crate) struct Sockets {
    pub(crate) poll: Poll,
    plain: Option<UdpSocket>,
    timed: Option<UdpSocket>,
    pub(crate) links: Vec<LinkSocket>,
    /// The ports of those for datagrams of all links; 0: there is none.
    ports: [u16; 2],
    pub(crate) control: Option<UnixListener>,
    pub(crate) metrics: Option<TcpListener>,
    /// How many octets of datagrams each socket for them keeps that wait: the least that one got.
    pub(crate) receive_buffer: u32,
}

/// What can't be opened.
#[derive(Clone, Copy)]
pub(crate) enum Opened<'a> {
    /// What all sockets are waited for with.
    Poll,
    /// The UDP port of this key.
    Udp(&'static str, u16),
    /// The TCP port for metrics.
    Tcp(u16),
    /// The control socket at this path.
    Control(&'a str),
    /// That socket for a group.
    Group(&'a str),
}

/// Why a socket isn't opened.
#[derive(Clone, Copy)]
pub(crate) struct SocketFault<'a> {
    opened: Opened<'a>,
    error: io::Error,
}

/// What the system says if a process has too many files open (EMFILE), or all processes have (ENFILE).
const TOO_MANY: [i32; 2] = [24, 23];

/// What is expected if this process can open no more files.
const DESCRIPTORS: &str = "expected free file descriptors (ulimit -n)";

/// Whether no more files can be opened.
fn is_too_many(error: &io::Error) -> bool {
    match error.raw_os_error() {
        Some(code) => TOO_MANY.contains(&code),
        None => false,
    }
}

/// What is expected of a port that can't be bound.
fn expected_port(error: &io::Error) -> &'static str {
    match error.kind() {
        ErrorKind::AddrInUse => "expected a free port (ss -anp shows who uses it)",
        ErrorKind::PermissionDenied => "expected a port above 1023",
        _ if is_too_many(error) => DESCRIPTORS,
        _ => "expected a port that can be bound",
    }
}

/// What is expected of a control socket that can't be bound.
fn expected_path(error: &io::Error) -> &'static str {
    if is_too_many(error) {
        DESCRIPTORS
    } else {
        "expected a path in a directory that this user may write"
    }
}

impl fmt::Display for SocketFault<'_> {
    fn fmt<W: fmt::Write>(&self, f: &mut fmt::Formatter<W>) -> fmt::Result {
        let why = Reason::of(&self.error);
        let expected = expected_port(&self.error);
        match self.opened {
            Opened::Poll => write!(f, "sockets: {why}; {DESCRIPTORS}"),
            Opened::Udp(key, port) => {
                write!(f, "{key}: UDP 127.0.0.1:{port}: {why}; {expected}")
            }
            Opened::Tcp(port) => {
                write!(f, "metrics_port: TCP 127.0.0.1:{port}: {why}; {expected}")
            }
            Opened::Control(path) => {
                let expected = expected_path(&self.error);
                write!(f, "control: {path}: {why}; {expected}")
            }
            Opened::Group(path) => {
                let expected = "expected a group of which this user is a member";
                write!(f, "control_group: {path}: {why}; {expected}")
            }
        }
    }
}

/// What was done to open this, or why it failed.
fn at<T: Drop>(opened: Opened<'_>, done: io::Result<T>) -> Result<T, SocketFault<'_>> {
    match done {
        Ok(value) => Ok(value),
        Err(error) => Err(SocketFault { opened, error }),
    }
}

/// The address of a port of 127.0.0.1.
fn local(port: u16) -> SocketAddr {
    SocketAddr::from((Ipv4Addr::LOCALHOST, port))
}

/// Waits for a socket to be readable.
fn watch<S: Source>(poll: &Poll, source: &mut S, token: Token) -> io::Result<()> {
    poll.registry().register(source, token, Interest::READABLE)
}

/// Asks for room for so many octets of datagrams that wait at a socket. Returns how many it got.
fn set_receive_buffer(socket: &UdpSocket, octets: u32) -> u32 {
    let socket = socket.as_raw_fd();
    let [a, b, c, d] = octets.to_ne_bytes();
    let mut value = [a, b, c, d, 0, 0, 0, 0, 0, 0, 0, 0, 0, 0, 0, 0];
    let mut size = 4;
    let _ = unsafe { setsockopt(socket, SOL_SOCKET, SO_RCVBUF, &value, 4) };
    if unsafe { getsockopt(socket, SOL_SOCKET, SO_RCVBUF, &mut value, &mut size) } != 0 {
        return 0;
    }
    // The system adds as much for what it keeps beside each datagram (socket(7)).
    u32::from_ne_bytes([value[0], value[1], value[2], value[3]]) / 2
}

/// Where the sockets for datagrams are bound.
#[derive(Drop)]
struct Binder<'a, R> {
    rt: &'a R,
    poll: &'a Poll,
    /// How many octets of datagrams each socket is to keep that wait, and the least that one got.
    wanted: u32,
    got: u32,
}

impl<R: Net> Binder<'_, R> {
    /// Binds a socket for datagrams.
    fn bind(
        &mut self,
        key: &'static str,
        port: Option<u16>,
        token: Token,
    ) -> Result<Option<UdpSocket>, SocketFault<'static>> {
        let Some(port) = port else {
            return Ok(None);
        };
        let opened = Opened::Udp(key, port);
        let mut socket = at(opened, UdpSocket::bind(self.rt, local(port)))?;
        self.got = self.got.min(set_receive_buffer(&socket, self.wanted));
        at(opened, watch(self.poll, &mut socket, token))?;
        Ok(Some(socket))
    }
}

/// Adds the socket of a link's own port. Something may wait there already.
fn add_socket(
    sockets: &mut Vec<LinkSocket>,
    link: u16,
    port: u16,
    socket: UdpSocket,
) -> io::Result<()> {
    sockets.push(LinkSocket {
        link,
        port,
        socket,
        is_waiting: true,
    })?;
    Ok(())
}

/// Whether there is a socket for a link at this port.
fn has_socket(sockets: &[LinkSocket], link: u16, port: u16) -> bool {
    sockets
        .iter()
        .any(|one| one.link == link && one.port == port)
}

/// Binds those of the links' own ports that aren't bound yet.
fn bind_links<R: Net>(
    binder: &mut Binder<'_, R>,
    sockets: &mut Vec<LinkSocket>,
    notes: &[LinkNote],
) -> Result<(), SocketFault<'static>> {
    for note in notes {
        let Some(port) = note.port else {
            continue;
        };
        if has_socket(sockets.as_slice(), note.number, port) {
            continue;
        }
        let token = Token(LINKS.saturating_add(usize::from(port)));
        if let Some(socket) = binder.bind("link port", Some(port), token)? {
            at(Opened::Poll, add_socket(sockets, note.number, port, socket))?;
        }
    }
    Ok(())
}

/// Removes a socket that a run left behind when it was killed.
pub(crate) fn remove_control<R: Files>(rt: &R, path: &str) -> io::Result<()> {
    match fs::remove_file(rt, path) {
        Err(e) if e.kind() != ErrorKind::NotFound => Err(e),
        _ => Ok(()),
    }
}

/// Whether a call of the system was done.
fn is_done(status: i32) -> io::Result<()> {
    if status == 0 {
        Ok(())
    } else {
        Err(io::Error::from(ErrorKind::Other))
    }
}

/// Binds a socket to a path. Its mode is set first, so that only its owner can ever open it. Nobody can connect yet.
fn bind_owned<R: Files + Net>(rt: &R, path: &str) -> io::Result<OwnedFd> {
    remove_control(rt, path)?;
    let socket = rt.unix_socket()?;
    is_done(fchmod(socket.as_raw_fd(), 0o600))?;
    rt.bind_unix(socket.as_fd(), &unix::net::SocketAddr::from_pathname(path)?)?;
    Ok(socket)
}

/// The number of a group that is known.
fn number_of(group: &Option<Group>) -> Option<u32> {
    match group {
        Some(Group::Numbered(number)) => Some(*number),
        _ => None,
    }
}

/// Lets the members of a group open the socket at a path. The group comes first: before, nobody else may.
fn share_with<R: Files>(rt: &R, path: &str, group: u32) -> io::Result<()> {
    unix::fs::lchown(rt, path, None, Some(group))?;
    fs::set_permissions(rt, path, Permissions::from_mode(0o660))
}

/// Lets programs connect to a socket that is bound.
fn listening(poll: &Poll, socket: OwnedFd) -> io::Result<UnixListener> {
    is_done(listen(socket.as_raw_fd(), WAITING_CONNECTIONS))?;
    let listener = unix::net::UnixListener::from(socket);
    listener.set_nonblocking(true)?;
    let mut listener = UnixListener::from_std(listener);
    watch(poll, &mut listener, CONTROL)?;
    Ok(listener)
}

/// The path at which the control socket is bound first, so that it is at its own only when it can be used.
fn beside(alloc: Global, path: &str) -> io::Result<String> {
    Ok(format!(in alloc; "{path}.new")?)
}

/// Binds the control socket, which its owner alone may open, or the members of this group too.
fn bind_control<'a, R: Files + Net + AllocGlobal>(
    rt: &R,
    poll: &Poll,
    path: &'a str,
    group: Option<u32>,
) -> Result<UnixListener, SocketFault<'a>> {
    let opened = Opened::Control(path);
    let new = at(opened, beside(rt.alloc(), path))?;
    let socket = at(opened, bind_owned(rt, new.as_str()))?;
    if let Some(group) = group {
        at(Opened::Group(path), share_with(rt, new.as_str(), group))?;
    }
    let listener = at(opened, listening(poll, socket))?;
    at(opened, fs::rename(rt, new.as_str(), path))?;
    Ok(listener)
}

/// Listens on the metrics port, if there is one.
fn bind_metrics<R: Net>(
    rt: &R,
    poll: &Poll,
    port: Option<u16>,
) -> Result<Option<TcpListener>, SocketFault<'static>> {
    let Some(port) = port else {
        return Ok(None);
    };
    let opened = Opened::Tcp(port);
    let mut listener = at(opened, TcpListener::bind(rt, local(port)))?;
    at(opened, watch(poll, &mut listener, METRICS))?;
    Ok(Some(listener))
}

impl Sockets {
    /// Opens all sockets. The control socket comes last, and so is the sign that the gateway is ready.
    pub(crate) fn open<'a, R: Files + Net + AllocGlobal>(
        rt: &R,
        config: &'a Config,
        notes: &[LinkNote],
    ) -> Result<Sockets, SocketFault<'a>> {
        let poll = at(Opened::Poll, Poll::new(rt))?;
        let mut binder = Binder {
            rt,
            poll: &poll,
            wanted: config.receive_buffer,
            got: u32::MAX,
        };
        let plain = binder.bind("port", config.port, PLAIN)?;
        let timed = binder.bind("timed_port", config.timed_port, TIMED)?;
        let mut links = Vec::new(rt.alloc());
        bind_links(&mut binder, &mut links, notes)?;
        let receive_buffer = binder.got;
        let metrics = bind_metrics(rt, &poll, config.metrics_port)?;
        let control = match &config.control {
            Some(path) => {
                let path = path.as_str();
                Some(bind_control(rt, &poll, path, number_of(&config.control_group))?)
            }
            None => None,
        };
        Ok(Sockets {
            poll,
            plain,
            timed,
            links,
            ports: [config.port.unwrap_or(0), config.timed_port.unwrap_or(0)],
            control,
            metrics,
            receive_buffer,
        })
    }

    /// Closes the links' own ports that the gateway file no longer names, and opens those that it names now. The error is the
    /// first that can't be opened; those before it are.
    pub(crate) fn follow<R: Net>(
        &mut self,
        rt: &R,
        wanted: u32,
        notes: &[LinkNote],
    ) -> Result<(), SocketFault<'static>> {
        self.links.retain(|one| {
            notes.iter().any(|note| note.number == one.link && note.port == Some(one.port))
        });
        let mut binder = Binder {
            rt,
            poll: &self.poll,
            wanted,
            got: u32::MAX,
        };
        bind_links(&mut binder, &mut self.links, notes)
    }

    /// The socket for datagrams of all links, timed or not, if it is open.
    pub(crate) fn of_all(&self, is_timed: bool) -> Option<Bound<'_>> {
        let [plain, timed] = self.ports;
        let (port, socket) = if is_timed {
            (timed, &self.timed)
        } else {
            (plain, &self.plain)
        };
        match socket {
            Some(socket) => Some(Bound { port, socket }),
            None => None,
        }
    }

    /// A socket for datagrams, if there is one.
    pub(crate) fn any(&self) -> Option<Bound<'_>> {
        let of_all = self.of_all(false).or(self.of_all(true));
        if of_all.is_some() {
            return of_all;
        }
        self.links.first().map(|one| one.bound())
    }

    /// The socket for datagrams at a port; another one if it is closed.
    pub(crate) fn at(&self, port: u16) -> Option<Bound<'_>> {
        for of_all in [self.of_all(false), self.of_all(true)] {
            if let Some(bound) = of_all
                && bound.port == port
            {
                return of_all;
            }
        }
        for one in &self.links {
            if one.port == port {
                return Some(one.bound());
            }
        }
        self.any()
    }

    /// Whether datagrams come in at this port.
    pub(crate) fn has_port(&self, port: u16) -> bool {
        self.ports.contains(&port) || self.links.iter().any(|one| one.port == port)
    }

    /// Notes that something waits at this port of a link.
    pub(crate) fn note_link(&mut self, port: usize) {
        for one in self.links.iter_mut() {
            if usize::from(one.port) == port {
                one.is_waiting = true;
            }
        }
    }
}
