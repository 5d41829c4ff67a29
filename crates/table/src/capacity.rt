// A side's capacity from the lengths of its tables: the fewest whole rows in any of them, at most 16,384.
ghost use Rattle.std.specs.Prelude.{◌≡◌, ◌/◌, min};
ghost use Rattle.paper.specs.Width.{link_width, place_width, work_width, dart_limit};
ghost use Rattle.paper.specs.Table.{plan_capacity, lifted_capacity};

use kernel::width;

pub fn plan(links: usize, places: usize, spans: usize, work: usize) -> usize
    ensures { result ≡ plan_capacity (record { links = links; places = places; spans = spans; work = work }) }
{
    fewest(links, places, spans / width::SPANS, work)
}

pub fn lifted(links: usize, places: usize, objects: usize, work: usize) -> usize
    ensures { result ≡ lifted_capacity (record { links = links; places = places; objects = objects; work = work }) }
{
    fewest(links, places, objects / width::OBJECTS, work)
}

// Both sides have links, places and work, and one table more, which has so many rows.
fn fewest(links: usize, places: usize, rows: usize, work: usize) -> usize
    ensures { result ≡ min (links / link_width) (min (places / place_width) (min rows (min (work / work_width) dart_limit))) }
{
    (links / width::LINKS)
        .min(places / width::PLACES)
        .min(rows)
        .min(work / width::WORK)
        .min(width::DARTS)
}
