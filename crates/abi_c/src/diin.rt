// diin.rt of abi, for C.
ghost use Rattle.chunk.specs.Append.{Appended};
ghost use Rattle.tree.specs.Tree.{bytes};
ghost use Rattle.master_info.specs.Diin.{diin};
ghost use Rattle.meanings.specs.Text.{options_of};
ghost use Rattle.meanings.specs.Property.{start_of};
ghost use Rattle.meanings.specs.Diin.{given_text, source_of, info_order_of};

#[unsafe(no_mangle)]
pub extern "C" fn jangqeruz_diin(
    out: &mut [u8],
    pool: &[u32],
    raw: &[u8],
    tracks: &[u32],
    custom: &[u32],
    order: &[u8; 4],
    on: bool,
    empty_info: bool,
    emid: &[u32; 3],
    custom_markers: bool,
    first: u32,
    end: u32,
    playtime: u32,
    source_track: u16,
    source_track_markers: bool,
    clipped_program: bool,
    titles: bool,
    start_given: bool,
    start_frame: u32,
    rule_number: u8,
    replacement: u8,
    empty_text: bool,
    text_pad_counted: bool,
    artist_title: bool,
    source_number: u8,
    album_artist: &[u32; 3],
    album_title: &[u32; 3],
    track_artist: &[u32; 3],
    track_title: &[u32; 3],
) -> usize
    ensures { Appended out.old 0
        (bytes (diin pool.now raw.now tracks.now custom.now (record {
          on = on;
          empty_info = empty_info;
          emid = given_text emid.now;
          custom_markers = custom_markers;
          program = record {
            first = first;
            end = end;
            playtime = playtime;
            source_track = source_track;
            source_track_markers = source_track_markers;
            clipped_program = clipped_program;
            titles = titles;
          };
          start = start_of start_given start_frame;
          text = options_of rule_number replacement empty_text text_pad_counted;
          artist_title = artist_title;
          artist_title_source = source_of source_number;
          album = record { artist = given_text album_artist.now; title = given_text album_title.now };
          track = record { artist = given_text track_artist.now; title = given_text track_title.now };
        }) (info_order_of order.now)))
        out.new result }
{
    abi::diin::jangqeruz_diin(
        out,
        pool,
        raw,
        tracks,
        custom,
        order,
        on,
        empty_info,
        emid,
        custom_markers,
        first,
        end,
        playtime,
        source_track,
        source_track_markers,
        clipped_program,
        titles,
        start_given,
        start_frame,
        rule_number,
        replacement,
        empty_text,
        text_pad_counted,
        artist_title,
        source_number,
        album_artist,
        album_title,
        track_artist,
        track_title,
    )
}
