//! Laws of the names of sources.
//!
//! Read first: `specs/Sources.antt`.

ghost use Rattle.std.specs.Prelude.{ℕ, List};
ghost use Rattle.dw_base.specs.FileViews.{View};
ghost use Rattle.dw_base.specs.Paths.{PathMap};
ghost use Rattle.dw_base.specs.ViewData.{debug_data};
ghost use Rattle.dw_sources.specs.KeptNames.{HaveNoNul};
ghost use Rattle.dw_sources.specs.Sources.{AreSources};

/// Of the sources of the debug data of views: no name has a NUL, wherever the texts stand that it is made of.
pub fn source_laws()
    ensures texts { (v : View) (m : PathMap) (names : List (List ℕ)) → AreSources (debug_data v) m names → HaveNoNul names }
{}
