//! The acts of the core.
use tuple_span::Route;

/// One act of the core.
#[derive(Clone, Copy, Debug, PartialEq, Eq)]
pub enum Event {
    /// The next row of a scan becomes a pending tuple.
    Claim { alias: u8 },
    /// The pending tuple at a place goes on by a route.
    Route { place: usize, route: Route },
    /// The next row of the asked key at a place becomes a pending tuple.
    Fetch { place: usize },
    /// The asked key at a place is ended.
    End { place: usize },
}
