//! How the cycles of these parts are paced.

use tide_heap::Pacing;

/// A period of 8 calls and visits, and 4 births until a cycle stops all calls. None begins by itself.
pub const PACING: Pacing = Pacing {
    calls: 8,
    visits: 8,
    headroom: 4,
    trigger: 0,
};
