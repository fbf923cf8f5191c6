// The source track (13, 14), and what an edited master asks (15 to 23).
ghost use Rattle.std.specs.Prelude.{◌≡◌};
ghost use Rattle.area_rules.specs.Master.{last_end, source_fault, master_area_fault, master_tracks_fault, master_options_fault, edited_master_fault, track_faults};

use crate::area::LONGEST_PLAYTIME;
use build_options::area::{Area, is_unspecified};
use build_options::options::{Options, Settings};
use refusal::verdict::{Refusal, Verdict, refuse_if};
use rows::durations::short_tracks;
use rows::row::Row;
use tracks::order::exact;
use tracks::track::track_span;

// The most tracks of an edited master.
const MOST_MASTER_TRACKS: usize = 255;

// 13 and 14
#[tactic(auto, using(refusal::proofs::VerdictLaws::in_turn), unfolding(crate::specs::Master::source_fault))]
fn source_fault(area: Area, tracks: &[u32], source_track: u16) -> Verdict
    ensures { result ≡ source_fault area tracks.now source_track }
{
    if source_track == 0 {
        return Ok(());
    }
    let number = source_track as usize;
    refuse_if(Row::Track.count(tracks) < number, Refusal::NoSourceTrack)?;
    let left = track_span(tracks, number - 1).clip(area.first, area.end);
    refuse_if(!left.has_frames(), Refusal::SourceTrackOutside)
}

// 15 to 17
#[tactic(auto, using(refusal::proofs::VerdictLaws::in_turn), unfolding(crate::specs::Master::master_area_fault))]
fn master_area_fault(area: Area, tracks: &[u32]) -> Verdict
    ensures { result ≡ master_area_fault area tracks.now }
{
    let n = Row::Track.count(tracks);
    refuse_if(
        area.first != 0 || area.end != area.playtime,
        Refusal::MasterRange,
    )?;
    refuse_if(is_unspecified(area.layout), Refusal::MasterLayout)?;
    refuse_if(n == 0 || MOST_MASTER_TRACKS < n, Refusal::MasterTracks)
}

// The end of the last track, 0 if there is none.
fn last_end(tracks: &[u32]) -> u32
    ensures { result ≡ last_end tracks.now }
{
    let n = Row::Track.count(tracks);
    track_span(tracks, n.saturating_sub(1)).end
}

// 18 to 20
#[tactic(auto, using(refusal::proofs::VerdictLaws::in_turn), unfolding(crate::specs::Master::master_tracks_fault))]
fn master_tracks_fault(tracks: &[u32]) -> Verdict
    ensures { result ≡ master_tracks_fault tracks.now }
{
    short_tracks(tracks)?;
    refuse_if(!exact(tracks), Refusal::TrackSpans)?;
    refuse_if(LONGEST_PLAYTIME < last_end(tracks), Refusal::MasterEnd)
}

// 21 to 23
#[tactic(auto, using(refusal::proofs::VerdictLaws::in_turn), unfolding(crate::specs::Master::master_options_fault))]
fn master_options_fault(o: Options) -> Verdict
    ensures { result ≡ master_options_fault o }
{
    refuse_if(o.custom_markers, Refusal::MasterMarkers)?;
    refuse_if(!o.loudspeaker_configuration, Refusal::MasterLsco)?;
    refuse_if(!o.edited_master_id_written, Refusal::MasterEmid)
}

// 15 to 23
#[tactic(auto, using(refusal::proofs::VerdictLaws::in_turn), unfolding(crate::specs::Master::edited_master_fault))]
fn check_edited_master(area: Area, o: Options, tracks: &[u32]) -> Verdict
    ensures { result ≡ edited_master_fault area o tracks.now }
{
    if !o.edited_master {
        return Ok(());
    }
    master_area_fault(area, tracks)?;
    master_tracks_fault(tracks)?;
    master_options_fault(o)
}

// 13 to 23
#[tactic(auto, using(refusal::proofs::VerdictLaws::in_turn), unfolding(crate::specs::Master::track_faults))]
pub fn track_faults(area: Area, o: Options, s: Settings, tracks: &[u32]) -> Verdict
    ensures { result ≡ track_faults area o s tracks.now }
{
    source_fault(area, tracks, s.source_track)?;
    check_edited_master(area, o, tracks)
}
