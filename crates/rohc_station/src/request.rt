//! What is asked of a gateway over HTTP/1.1 (RFC 9112): a method, a path and a query.

ghost use Rattle.std.specs.Prelude.{◌≡◌, Ok, IfOk, true, codes};
ghost use Rattle.rohc_station.specs.Requests.{changes, number_in, is_head, IsAskedByPost, IsAnswerTo};

use httparse::Status;
use httparse::spans::{EMPTY_HEADER_SPAN, HeaderSpan, RequestSpans, parse_request};

/// The most header fields of a request.
const MOST_FIELDS: usize = 64;

/// How a list is written.
#[derive(Clone, Copy, PartialEq, Eq)]
pub enum Form {
    /// One object of JSON per line.
    Json,
    /// A table for people.
    Text,
}

/// What is asked of a gateway.
#[derive(Clone, Copy, PartialEq, Eq)]
pub enum Request {
    /// `POST /stop`: save, and end.
    Stop,
    /// `POST /save`: save.
    Save,
    /// `POST /reload`: read the links file anew.
    Reload,
    /// `POST /reset?link=L`, and `&cid=C`: forget the records of a link, or that of one CID.
    Reset {
        /// The link.
        link: u16,
        /// The CID, if one alone is meant.
        cid: Option<u16>,
    },
    /// `POST /drain`: take no new call.
    Drain,
    /// `POST /resume`: take new calls again.
    Resume,
    /// `POST /kept`: the newest save was copied; with `?failed`, it couldn't be.
    Kept {
        /// Whether the copy failed.
        failed: bool,
    },
    /// `POST /hold?link=L`: keep the datagrams of a link until its contexts are imported; with `&off`, drop them.
    Hold {
        /// The link.
        link: u16,
        /// Whether this ends.
        off: bool,
    },
    /// `POST /export?link=L`: show what is saved of a link, and take no packet of it any more; with `&off`, take them again.
    Export {
        /// The link.
        link: u16,
        /// Whether this ends.
        off: bool,
    },
    /// `POST /import?link=L`, with what was exported as the body: go on with the calls of a link that is held.
    Import {
        /// The link.
        link: u16,
    },
    /// `GET /ready`, or `HEAD`, as for each below
    Ready,
    /// `GET /reload`: show what a reload would do.
    Preview,
    /// `GET /watch?link=L&cid=C`: show each packet of a call until the reader ends.
    Follow {
        /// The link.
        link: u16,
        /// The CID.
        cid: u16,
    },
    /// `GET /record?seconds=N`, and `&link=L`: give the contexts, and then the packets that arrive in so many seconds.
    Record {
        /// The link, if only its packets are meant.
        link: Option<u16>,
        /// For how many seconds.
        seconds: u16,
    },
    /// `GET /status`
    Status,
    /// `GET /state`: the contexts as a save would write them now.
    State,
    /// `GET /keep`: where the newest save stands, and where its copy belongs.
    Keep,
    /// `GET /metrics`
    Metrics,
    /// `GET /`: the page for people.
    Page,
    /// `GET /top`: the links and the worst calls, as text for people.
    Top,
    /// `GET /contexts?link=L`
    Contexts {
        /// The link.
        link: u16,
    },
    /// `GET /calls`, with `link=L` and `as=text` or without
    Calls {
        /// The link, if only its calls are meant.
        link: Option<u16>,
        /// How they are written.
        form: Form,
    },
}

impl Request {
    ghost use Rattle.std.specs.Prelude.{◌≡◌};
    ghost use Rattle.rohc_station.specs.Requests.{changes};

    /// Whether the request changes how datagrams are answered from then on. Saving changes nothing of that.
    pub fn changes(&self) -> bool
        ensures { result ≡ changes self.now }
    {
        match self {
            Request::Stop
            | Request::Reload
            | Request::Reset { .. }
            | Request::Drain
            | Request::Resume
            | Request::Hold { .. }
            | Request::Export { .. }
            | Request::Import { .. } => true,
            Request::Save
            | Request::Kept { .. }
            | Request::Ready
            | Request::Preview
            | Request::Follow { .. }
            | Request::Record { .. }
            | Request::Status
            | Request::State
            | Request::Keep
            | Request::Metrics
            | Request::Page
            | Request::Top
            | Request::Contexts { .. }
            | Request::Calls { .. } => false,
        }
    }
}

/// Why a request is refused.
#[derive(Clone, Copy, PartialEq, Eq)]
pub enum RequestFault {
    /// It is no HTTP/1 request, has a body, or a query that its path doesn't take.
    BadRequest,
    /// There is nothing at this path.
    NotFound,
    /// The path doesn't take this method.
    MethodNotAllowed,
    /// Its head is longer than the gateway takes.
    TooLarge,
}

impl RequestFault {
    ghost use Rattle.std.specs.Prelude.{◌≡◌};
    ghost use Rattle.rohc_station.specs.Requests.{status_of, name_of, text_of};

    /// The status code (RFC 9110 15.5).
    pub fn status(&self) -> u16
        ensures { result ≡ status_of self.now }
    {
        match self {
            RequestFault::BadRequest => 400,
            RequestFault::NotFound => 404,
            RequestFault::MethodNotAllowed => 405,
            RequestFault::TooLarge => 413,
        }
    }

    /// The name.
    pub fn name(&self) -> &'static str
        ensures { result.now ≡ name_of self.now }
    {
        match self {
            RequestFault::BadRequest => "BadRequest",
            RequestFault::NotFound => "NotFound",
            RequestFault::MethodNotAllowed => "MethodNotAllowed",
            RequestFault::TooLarge => "TooLarge",
        }
    }

    /// What was wrong and what was expected, for a reader.
    pub fn text(&self) -> &'static str
        ensures { result.now ≡ text_of self.now }
    {
        match self {
            RequestFault::BadRequest => {
                "not a request that a gateway knows; expected HTTP/1.1 with the query of its path, and a body only for import"
            }
            RequestFault::NotFound => "nothing is at this path; man rohctl names each request",
            RequestFault::MethodNotAllowed => {
                "the path has another method; expected GET or HEAD to show something, POST to change something"
            }
            RequestFault::TooLarge =>
                "the request is too long; expected a head of at most 8192 octets, and a body of at most 2 MiB",
        }
    }
}

/// What has come of a request.
#[derive(Clone, Copy, PartialEq, Eq)]
pub enum Asked {
    /// The head isn't whole yet.
    Unfinished,
    /// A request.
    Whole(Request),
    /// A fault.
    Faulty(RequestFault),
}

/// The method of a request, as far as a gateway knows it.
#[derive(Clone, Copy)]
enum Method {
    /// `GET`, or `HEAD`, whose answer has no body.
    Get,
    Post,
    Other,
}

/// The method of this name.
fn method_of(name: &[u8]) -> Method
    ensures { result ≡ Method.Post → name.now ≡ codes "POST" }
{
    if name == b"GET".as_slice() || name == b"HEAD".as_slice() {
        Method::Get
    } else if name == b"POST".as_slice() {
        Method::Post
    } else {
        Method::Other
    }
}

/// What a query asks for.
#[derive(Clone, Copy)]
struct Query {
    link: u16,
    cid: Option<u16>,
}

/// The value of a decimal digit.
fn digit_of(octet: u8) -> Option<u16>
    ensures { result ≡ digit_of octet }
{
    match octet {
        b'0'..=b'9' => Some(u16::from(octet - b'0')),
        _ => None,
    }
}

ghost use Rattle.rohc_station.specs.Requests.{digit_of};

/// The number below 65,536 that these decimal digits spell.
fn number_in(digits: &[u8]) -> Option<u16>
    ensures { result ≡ number_in digits.now }
{
    if digits.is_empty() {
        return None;
    }
    let mut number = 0u16;
    for octet in digits {
        let digit = digit_of(*octet)?;
        number = number.checked_mul(10)?.checked_add(digit)?;
    }
    Some(number)
}

/// The two parts of a text around the first octet of this value; the second is `None` if there is none.
fn split_at_first(octets: &[u8], mark: u8) -> (&[u8], Option<&[u8]>) {
    match octets.iter().position(|octet| *octet == mark) {
        Some(place) => match octets.get(place + 1..) {
            Some(behind) => (&octets[..place], Some(behind)),
            None => (octets, None),
        },
        None => (octets, None),
    }
}

/// The link and the CID in a query: `link=L` or `link=L&cid=C`.
fn query_in(query: &[u8]) -> Option<Query> {
    let (first, second) = split_at_first(query, b'&');
    let link = number_in(first.strip_prefix(b"link=".as_slice())?)?;
    let cid = match second {
        Some(part) => Some(number_in(part.strip_prefix(b"cid=".as_slice())?)?),
        None => None,
    };
    Some(Query { link, cid })
}

/// The link in a query `link=L`.
fn link_in(query: Option<&[u8]>) -> Result<u16, RequestFault> {
    match query_in(query.ok_or(RequestFault::BadRequest)?) {
        Some(Query { link, cid: None }) => Ok(link),
        _ => Err(RequestFault::BadRequest),
    }
}

/// The form that `as=text` asks for, or none.
fn form_in(query: Option<&[u8]>) -> Option<Form> {
    match query {
        None => Some(Form::Json),
        Some(query) if query == b"as=text".as_slice() => Some(Form::Text),
        Some(_) => None,
    }
}

/// The link and the form in a query of `/calls`: `link=L`, `as=text`, both with `&` between them, or none.
fn calls_in(query: Option<&[u8]>) -> Result<(Option<u16>, Form), RequestFault> {
    if let Some(form) = form_in(query) {
        return Ok((None, form));
    }
    let (first, second) = split_at_first(query.ok_or(RequestFault::BadRequest)?, b'&');
    match (link_in(Some(first)), form_in(second)) {
        (Ok(link), Some(form)) => Ok((Some(link), form)),
        _ => Err(RequestFault::BadRequest),
    }
}

/// What a query of `/reset` means.
fn reset_in(query: Option<&[u8]>) -> Result<Request, RequestFault> {
    match query_in(query.ok_or(RequestFault::BadRequest)?) {
        Some(Query { link, cid }) => Ok(Request::Reset { link, cid }),
        None => Err(RequestFault::BadRequest),
    }
}

/// The link in a query `link=L` or `link=L&off`, and whether it is the second.
fn moved_in(query: Option<&[u8]>) -> Result<(u16, bool), RequestFault> {
    let (first, second) = split_at_first(query.ok_or(RequestFault::BadRequest)?, b'&');
    let link = link_in(Some(first))?;
    match second {
        None => Ok((link, false)),
        Some(word) if word == b"off".as_slice() => Ok((link, true)),
        Some(_) => Err(RequestFault::BadRequest),
    }
}

/// What `POST` asks for at a path of those that move a link; `None` if no path of that kind is there.
fn moved(path: &[u8], query: Option<&[u8]>) -> Option<Result<Request, RequestFault>> {
    if path == b"/hold".as_slice() {
        Some(moved_in(query).map(|(link, off)| Request::Hold { link, off }))
    } else if path == b"/export".as_slice() {
        Some(moved_in(query).map(|(link, off)| Request::Export { link, off }))
    } else if path == b"/import".as_slice() {
        Some(link_in(query).map(|link| Request::Import { link }))
    } else {
        None
    }
}

/// What a query of `/watch` means.
fn follow_in(query: Option<&[u8]>) -> Result<Request, RequestFault>
    ensures { ChangesNothing result }
{
    match query_in(query.ok_or(RequestFault::BadRequest)?) {
        Some(
            Query {
                link,
                cid: Some(cid),
            },
        ) => Ok(Request::Follow { link, cid }),
        _ => Err(RequestFault::BadRequest),
    }
}

/// What a query of `/record` means: `seconds=N`, or `seconds=N&link=L`.
fn record_in(query: Option<&[u8]>) -> Result<Request, RequestFault>
    ensures { ChangesNothing result }
{
    let (first, second) = split_at_first(query.ok_or(RequestFault::BadRequest)?, b'&');
    let digits = first.strip_prefix(b"seconds=".as_slice());
    let seconds = number_in(digits.ok_or(RequestFault::BadRequest)?);
    let link = match second {
        Some(part) => Some(link_in(Some(part))?),
        None => None,
    };
    match seconds {
        Some(seconds @ 1..) => Ok(Request::Record { link, seconds }),
        _ => Err(RequestFault::BadRequest),
    }
}

/// What a query of `/kept` means: none, or `failed`.
fn kept_in(query: Option<&[u8]>) -> Result<Request, RequestFault> {
    match query {
        None => Ok(Request::Kept { failed: false }),
        Some(word) if word == b"failed".as_slice() => Ok(Request::Kept { failed: true }),
        Some(_) => Err(RequestFault::BadRequest),
    }
}

/// The request, if there is no query.
fn alone(request: Request, query: Option<&[u8]>) -> Result<Request, RequestFault>
    ensures { IfOk result (λ r. r ≡ request) }
{
    match query {
        Some(_) => Err(RequestFault::BadRequest),
        None => Ok(request),
    }
}

/// What `POST` asks for at a path; `None` if no path of that kind is there.
fn posted(path: &[u8], query: Option<&[u8]>) -> Option<Result<Request, RequestFault>> {
    if path == b"/stop".as_slice() {
        Some(alone(Request::Stop, query))
    } else if path == b"/save".as_slice() {
        Some(alone(Request::Save, query))
    } else if path == b"/reload".as_slice() {
        Some(alone(Request::Reload, query))
    } else if path == b"/drain".as_slice() {
        Some(alone(Request::Drain, query))
    } else if path == b"/resume".as_slice() {
        Some(alone(Request::Resume, query))
    } else if path == b"/kept".as_slice() {
        Some(kept_in(query))
    } else if path == b"/reset".as_slice() {
        Some(reset_in(query))
    } else {
        moved(path, query)
    }
}

/// What `GET` asks for at a path; `None` if no path of that kind is there.
fn got(path: &[u8], query: Option<&[u8]>) -> Option<Result<Request, RequestFault>>
    ensures { IfSome result ChangesNothing }
{
    if path == b"/ready".as_slice() {
        Some(alone(Request::Ready, query))
    } else if path == b"/status".as_slice() {
        Some(alone(Request::Status, query))
    } else if path == b"/state".as_slice() {
        Some(alone(Request::State, query))
    } else if path == b"/keep".as_slice() {
        Some(alone(Request::Keep, query))
    } else if path == b"/top".as_slice() {
        Some(alone(Request::Top, query))
    } else if path == b"/metrics".as_slice() {
        Some(alone(Request::Metrics, query))
    } else if path == b"/".as_slice() {
        Some(alone(Request::Page, query))
    } else if path == b"/reload".as_slice() {
        Some(alone(Request::Preview, query))
    } else if path == b"/watch".as_slice() {
        Some(follow_in(query))
    } else if path == b"/record".as_slice() {
        Some(record_in(query))
    } else if path == b"/contexts".as_slice() {
        Some(link_in(query).map(|link| Request::Contexts { link }))
    } else if path == b"/calls".as_slice() {
        Some(calls_in(query).map(|(link, form)| Request::Calls { link, form }))
    } else {
        None
    }
}

ghost use Rattle.std.specs.Prelude.{IfSome};
ghost use Rattle.rohc_station.specs.Requests.{ChangesNothing};
ghost use Rattle.rohc_station.specs.declared.request.Method.TheVariants as Method;

/// The request of this method at this target: a path, and behind `?` a query.
pub fn request_of(name: &[u8], target: &[u8]) -> Result<Request, RequestFault>
    ensures { IfOk result (IsAskedByPost name.now) }
{
    let (path, query) = split_at_first(target, b'?');
    let is_known = posted(path, query).is_some() || got(path, query).is_some();
    let asked = match method_of(name) {
        Method::Post => posted(path, query),
        Method::Get => got(path, query),
        Method::Other => None,
    };
    match asked {
        Some(asked) => asked,
        None if is_known => Err(RequestFault::MethodNotAllowed),
        None => Err(RequestFault::NotFound),
    }
}

/// Whether a field says that a body follows.
fn says_body(head: &[u8], field: &HeaderSpan) -> bool {
    let Some(name) = head.get(field.name.start..field.name.end) else {
        return true;
    };
    let Some(value) = head.get(field.value.start..field.value.end) else {
        return true;
    };
    if name.eq_ignore_ascii_case(b"content-length") {
        value != b"0".as_slice()
    } else {
        name.eq_ignore_ascii_case(b"transfer-encoding")
    }
}

ghost use Rattle.httparse.specs.Spans.{span_bytes};

/// The request of a whole head.
fn request_in(
    head: &[u8],
    spans: &RequestSpans,
    fields: &[HeaderSpan],
) -> Result<Request, RequestFault>
    ensures { IfOk result (IsAskedByPost (span_bytes head.now spans.now.method)) }
{
    let Some(fields) = fields.get(..spans.headers) else {
        return Err(RequestFault::BadRequest);
    };
    let method = head.get(spans.method.start..spans.method.end);
    let target = head.get(spans.path.start..spans.path.end);
    let (Some(method), Some(target)) = (method, target) else {
        return Err(RequestFault::BadRequest);
    };
    let says = fields.iter().any(|field| says_body(head, field));
    match request_of(method, target) {
        Ok(request) if has_body(request) => Ok(request),
        _ if says => Err(RequestFault::BadRequest),
        asked => asked,
    }
}

/// Whether a request has a body.
fn has_body(request: Request) -> bool {
    matches!(request, Request::Import { .. })
}

/// Where the body of a request begins, and how many octets it has.
#[derive(Clone, Copy, PartialEq, Eq)]
pub struct Body {
    /// The octets of the head before it.
    pub start: usize,
    /// Its octets.
    pub size: u32,
}

/// The number that decimal digits spell, if it has 32 bits.
fn size_in(digits: &[u8]) -> Option<u32> {
    if digits.is_empty() {
        return None;
    }
    let mut size = 0u32;
    for octet in digits {
        let digit = digit_of(*octet)?;
        size = size.checked_mul(10)?.checked_add(u32::from(digit))?;
    }
    Some(size)
}

/// How many octets a field says that the body has; `None` if it is another field.
fn size_of(head: &[u8], field: &HeaderSpan) -> Option<u32> {
    let name = head.get(field.name.start..field.name.end)?;
    if !name.eq_ignore_ascii_case(b"content-length") {
        return None;
    }
    size_in(head.get(field.value.start..field.value.end)?)
}

/// How many octets the body has: the first field that says so counts.
fn size_among(head: &[u8], fields: &[HeaderSpan]) -> Option<u32> {
    for field in fields {
        if let Some(size) = size_of(head, field) {
            return Some(size);
        }
    }
    None
}

ghost use Rattle.std.specs.Prelude.{◌≤◌, length, drop};
ghost use Rattle.httparse.specs.Grammar.{ReadsRequest, RequestHead};

/// The body of a request whose head is whole and says the size of a body.
pub fn body_in(octets: &[u8]) -> Option<Body>
    ensures within { IfSome result (λ body. body.start ≤ length octets.now) }
    ensures behind { IfSome result (λ body. (head : RequestHead) × ReadsRequest octets.now head (drop body.start octets.now)) }
{
    let mut fields = [EMPTY_HEADER_SPAN; MOST_FIELDS];
    match parse_request(octets, &mut fields) {
        Ok(Status::Complete(spans)) => Some(Body {
            start: spans.len,
            size: size_among(octets, fields.get(..spans.headers)?)?,
        }),
        _ => None,
    }
}

/// Whether the octets of a request, or the first of them, have the method HEAD, so that the answer has no body (RFC 9110
/// 9.3.2). Line ends before it are skipped, as `read_request` skips them.
pub fn is_head(octets: &[u8]) -> bool
    ensures { result ≡ is_head octets.now }
{
    for (place, octet) in octets.iter().enumerate() {
        if !matches!(*octet, b'\r' | b'\n') {
            return octets[place..].starts_with(b"HEAD ".as_slice());
        }
    }
    false
}

/// What has come of a request: it isn't whole yet, or it is a request, or a fault. Whatever the octets are, there is an
/// answer, and one that changes something came by POST; which request is at which path is shown by tests.
pub fn read_request(octets: &[u8]) -> Asked
    ensures { IsAnswerTo octets.now result }
{
    let mut fields = [EMPTY_HEADER_SPAN; MOST_FIELDS];
    match parse_request(octets, &mut fields) {
        Ok(Status::Complete(spans)) => match request_in(octets, &spans, &fields) {
            Ok(request) => Asked::Whole(request),
            Err(fault) => Asked::Faulty(fault),
        },
        Ok(Status::Partial) => Asked::Unfinished,
        Err(_) => Asked::Faulty(RequestFault::BadRequest),
    }
}
