//! Laws of reports, each the contract of a function that does nothing.
ghost use Rattle.std.specs.Prelude.{◌≡◌, ℕ, List, [], Ok, map};
ghost use Rattle.std.specs.List.{flat_map};
ghost use Rattle.dav_io.specs.Counts.{Rose};
ghost use Rattle.dav_core.specs.declared.member.Member.{Member};
ghost use Rattle.dav_core.specs.DavPath.{WebPath};
ghost use Rattle.dav_core.specs.World.{World};
ghost use Rattle.dav_model.specs.Finding.{listed_in};
ghost use Rattle.dav_local.specs.Ways.{resolved_by};
ghost use Rattle.dav_local_laws.specs.Ruled.{FindsOnce};
ghost use Rattle.dav_local_laws.specs.Simple.{opened, plain_ways};
ghost use Rattle.dav_report.specs.declared.answer.Report.{Report};
ghost use Rattle.dav_selection.specs.Reports.{AreInOrder, LinksAsked, Sought, member_path};
ghost use Rattle.dav_selection.specs.Selection.{follows, queries};
ghost use Rattle.dav_selection.specs.Shown.{IsRight, Stock, at_most, due_at, due_of, lacking};
ghost use Rattle.dav_selection.specs.Told.{stock_in};

/// Where no fault was met, the report of a query has exactly the first records, as many as are wanted, that are due of
/// the members of its directory in order of the bytes of their names.
pub fn queries_are_exact()
    ensures { (q : Sought) (stock : Stock) (all : List Member) (from now : ℕ) (report : Report) → (Rose from now → ⊥)
        → stock.listed q.dir ≡ Ok all → IsRight (queries q) stock (Rose from now) (Ok report)
        → (sorted : List Member) × AreInOrder all sorted
        × (report.records ≡ at_most q.limit (flat_map (due_at q.taken stock) (map (member_path q.dir) sorted)))
        × (report.missing ≡ []) }
{}

/// Where no fault was met, the report of a multiget has exactly the records that are due of its links, and the links of
/// which none is are missing.
pub fn multigets_are_exact()
    ensures { (asked : LinksAsked) (stock : Stock) (from now : ℕ) (report : Report) → (Rose from now → ⊥)
        → IsRight (follows asked) stock (Rose from now) (Ok report)
        → (report.records ≡ flat_map (due_of asked stock) asked.hrefs)
        × (report.missing ≡ lacking (due_of asked stock) asked.hrefs) }
{}

/// Where each path is meant as it is written, the rules find it there and nowhere else, in every world. What a report
/// finds is what stands there then: the members of its directory, and what is opened, nothing where a slash ends it.
pub fn plain_stocks_are_as_written()
    ensures { (w : World) (path : WebPath) → FindsOnce plain_ways w
        × (resolved_by plain_ways w.tree path.names ≡ path.names)
        × ((stock_in plain_ways w).listed path ≡ listed_in w path.names)
        × ((stock_in plain_ways w).opened path ≡ opened w path) }
{}
