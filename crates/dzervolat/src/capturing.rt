// Capture files read into traces, and traces written as capture files: whole, into octets that the host lends, or piece by piece, for a file that is larger than a
// buffer. What a reader or a writer keeps between two pieces is in words that the host keeps; zeroed they are fresh.
ghost use Rattle.std.specs.Prelude.{◌≡◌, [], length};
ghost use Rattle.refusal.specs.Refusal.{code_of};
ghost use Rattle.pcap.specs.File.{Frame};
ghost use Rattle.pcap.specs.Written.{head_in, our_form, our_fields};
ghost use Rattle.exporting.specs.Exporting.{export_of, out_after_export, export_block_of, reader_behind, packets_behind};
ghost use Rattle.importing.specs.Importing.{frame_recorded, open_behind, words_behind, out_behind, import_of, out_after_import};
ghost use Rattle.capture_words.specs.Captures.{head_check, form_after, packet_check, packet_after};
ghost use Rattle.message_words.specs.Writing.{written_code, written_words};
ghost use Rattle.trace_words.specs.Answers.{recorded_code, recorded_words};
ghost use Rattle.words.specs.Words.{port_of};

// Reads a whole capture into a trace on a port, and says how many octets that has.
#[unsafe(no_mangle)]
pub extern "C" fn dz_import(out: &mut [u8], port: u64, octets: &[u8], written: &mut [u64; 1]) -> u64
    ensures answer { result ≡ written_code (import_of (length out.old) (port_of port) octets.now) }
    ensures buffer { out.new ≡ out_after_import out.old (port_of port) octets.now }
    ensures words { written.new ≡ written_words (import_of (length out.old) (port_of port) octets.now) written.old }
{
    let p = words::port_of(port);
    let w = importing::import(out, p, octets);
    message_words::writing::put_written(written, w)
}

// Writes a whole trace as a capture, and says how many octets that has.
#[unsafe(no_mangle)]
pub extern "C" fn dz_export(out: &mut [u8], octets: &[u8], written: &mut [u64; 1]) -> u64
    ensures answer { result ≡ written_code (export_of (length out.old) octets.now) }
    ensures buffer { out.new ≡ out_after_export out.old octets.now }
    ensures words { written.new ≡ written_words (export_of (length out.old) octets.now) written.old }
{
    let w = exporting::export(out, octets);
    message_words::writing::put_written(written, w)
}

// The form that the head of a capture tells.
#[unsafe(no_mangle)]
pub extern "C" fn dz_capture_head(
    head: &[u8; pcap::HEAD],
    form: &mut [u64; capture_words::FORM],
) -> u64
    ensures answer { result ≡ code_of (head_check head.now) }
    ensures words { form.new ≡ form_after form.old head.now }
{
    capture_words::put_form(form, head)
}

// What the head of a packet says, in a capture of a form.
#[unsafe(no_mangle)]
pub extern "C" fn dz_capture_packet(
    form: &[u64; capture_words::FORM],
    head: &[u8; pcap::PACKET],
    packet: &mut [u64; capture_words::PACKET],
) -> u64
    ensures answer { result ≡ code_of (packet_check form.now head.now) }
    ensures words { packet.new ≡ packet_after form.now packet.old head.now }
{
    capture_words::put_packet(packet, form, head)
}

// Records the message of a frame that arrived on a port at time `t`, or passes the frame over; `closed` says whether that brought a block out.
#[unsafe(no_mangle)]
pub extern "C" fn dz_capture_record(
    recording: &mut [u64; recording::WORDS],
    opened: &mut [u8; block::OCTETS],
    port: u64,
    t: u64,
    frame: &[u8],
    out: &mut [u8; block::OCTETS],
    closed: &mut [u64; 1],
) -> u64
    ensures answer { result ≡ recorded_code (frame_recorded recording.old (port_of port) (record { time = t; octets = frame.now })) }
    ensures words { recording.new ≡ words_behind recording.old (port_of port) (record { time = t; octets = frame.now }) }
    ensures opened { opened.new ≡ open_behind opened.old recording.old (port_of port) (record { time = t; octets = frame.now }) }
    ensures block { out.new ≡ out_behind opened.old recording.old (port_of port) (record { time = t; octets = frame.now }) out.old }
    ensures closed { closed.new ≡ recorded_words (frame_recorded recording.old (port_of port) (record { time = t; octets = frame.now })) closed.old }
{
    let p = words::port_of(port);
    let x = importing::keep(opened, recording, p, t, frame, out);
    trace_words::put_recorded(closed, x)
}

// The head of a capture that is written.
#[unsafe(no_mangle)]
pub extern "C" fn dz_capture_begin(head: &mut [u8; pcap::HEAD]) -> u64
    ensures answer { result ≡ 0 }
    ensures octets { head.new ≡ head_in our_form our_fields [] }
{
    *head = [0; pcap::HEAD];
    exporting::put_head(&mut head[..]);
    0
}

// The packets of a block behind those that were written, and how many octets they have.
#[unsafe(no_mangle)]
pub extern "C" fn dz_capture_block(
    exporter: &mut [u64; exporting::WORDS],
    octets: &[u8],
    packets: &mut [u8; exporting::MOST],
    written: &mut [u64; 1],
) -> u64
    ensures answer { result ≡ written_code (export_block_of exporter.old octets.now) }
    ensures words { exporter.new ≡ reader_behind exporter.old octets.now }
    ensures packets { packets.new ≡ packets_behind exporter.old packets.old octets.now }
    ensures written { written.new ≡ written_words (export_block_of exporter.old octets.now) written.old }
{
    let w = exporting::export_block(exporter, octets, packets);
    message_words::writing::put_written(written, w)
}
