// Whose artist and title DIIN has: the album's or the track's.
ghost use Rattle.std.specs.Prelude.{◌≡◌};
ghost use Rattle.master_info.specs.Pick.{of_track, pick};

use texts::extent::Extent;

#[derive(Clone, Copy)]
pub enum ArtistTitleSource {
    Album,
    Track,
    TrackThenAlbum, // the first that is present
}

// The artist and the title of an album or of a track, if they are given.
#[derive(Clone, Copy)]
pub struct ArtistTitle {
    pub artist: Option<Extent>,
    pub title: Option<Extent>,
}

// A track's text: none without a source track.
fn of_track(has_source: bool, track: Option<Extent>) -> Option<Extent>
    ensures { result ≡ of_track has_source track }
{
    if has_source { track } else { None }
}

pub(crate) fn pick(
    source: ArtistTitleSource,
    has_source: bool,
    track: Option<Extent>,
    album: Option<Extent>,
) -> Option<Extent>
    ensures { result ≡ pick source has_source track album }
{
    let track = of_track(has_source, track);
    match source {
        ArtistTitleSource::Album => album,
        ArtistTitleSource::Track => track,
        ArtistTitleSource::TrackThenAlbum => track.or(album),
    }
}
