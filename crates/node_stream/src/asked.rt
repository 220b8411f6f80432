//! What a line asks.

ghost use Rattle.std.specs.Prelude.{◌≡◌};

use replica::Request;

/// The bytes of a page that an answer shows: `len` bytes from `offset` on, up to the page's 4,096.
#[derive(Clone, Copy)]
pub struct Window {
    pub offset: u16,
    pub len: u16,
}

/// A request, and which bytes of a page its answer shows.
#[derive(Drop)]
pub struct Asked {
    pub request: Request,
    pub window: Window,
}

impl Asked {
    ghost use Rattle.node_stream.specs.Asking.{asked};

    /// A request whose answer shows no page.
    pub fn new(request: Request) -> Self
        ensures { result ≡ asked request }
    {
        let window = Window { offset: 0, len: 0 };
        Asked { request, window }
    }
}

/// A request to a guard, and which bytes of a page its answer shows.
#[derive(Drop)]
pub struct GuardAsked {
    pub request: guard::Request,
    pub window: Window,
}

impl GuardAsked {
    ghost use Rattle.node_stream.specs.Asking.{guard_asked, plainly, under};

    /// A request whose answer shows no page.
    pub fn new(request: guard::Request) -> Self
        ensures { result ≡ guard_asked request }
    {
        let window = Window { offset: 0, len: 0 };
        GuardAsked { request, window }
    }

    /// A request of a replica that no engine asks under its generation.
    pub fn plain(asked: Asked) -> Self
        ensures { result ≡ plainly asked }
    {
        GuardAsked {
            request: guard::Request::Plain(asked.request),
            window: asked.window,
        }
    }

    /// The same for the engine of a generation, in a birth of the node.
    pub fn under(generation: u64, birth: u64, asked: Asked) -> Self
        ensures { result ≡ under generation birth asked }
    {
        GuardAsked {
            request: guard::Request::As {
                generation,
                birth,
                request: asked.request,
            },
            window: asked.window,
        }
    }
}
