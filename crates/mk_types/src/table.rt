//! The table of endings.

/// An ending of the names of files, and their media type.
#[derive(Debug)]
pub(crate) struct FileType {
    /// The ending, in lower case.
    pub(crate) ending: &'static str,
    pub(crate) media: &'static str,
}

/// The endings that are known. Their types are those of IANA's registry of media types.
pub(crate) static FILE_TYPES: [FileType; 52] = [
    FileType {
        ending: "txt",
        media: "text/plain",
    },
    FileType {
        ending: "text",
        media: "text/plain",
    },
    FileType {
        ending: "log",
        media: "text/plain",
    },
    FileType {
        ending: "md",
        media: "text/markdown",
    },
    FileType {
        ending: "html",
        media: "text/html",
    },
    FileType {
        ending: "htm",
        media: "text/html",
    },
    FileType {
        ending: "css",
        media: "text/css",
    },
    FileType {
        ending: "csv",
        media: "text/csv",
    },
    FileType {
        ending: "js",
        media: "text/javascript",
    },
    FileType {
        ending: "ics",
        media: "text/calendar",
    },
    FileType {
        ending: "vcf",
        media: "text/vcard",
    },
    FileType {
        ending: "xml",
        media: "application/xml",
    },
    FileType {
        ending: "json",
        media: "application/json",
    },
    FileType {
        ending: "pdf",
        media: "application/pdf",
    },
    FileType {
        ending: "rtf",
        media: "application/rtf",
    },
    FileType {
        ending: "ps",
        media: "application/postscript",
    },
    FileType {
        ending: "doc",
        media: "application/msword",
    },
    FileType {
        ending: "docx",
        media: "application/vnd.openxmlformats-officedocument.wordprocessingml.document",
    },
    FileType {
        ending: "xls",
        media: "application/vnd.ms-excel",
    },
    FileType {
        ending: "xlsx",
        media: "application/vnd.openxmlformats-officedocument.spreadsheetml.sheet",
    },
    FileType {
        ending: "ppt",
        media: "application/vnd.ms-powerpoint",
    },
    FileType {
        ending: "pptx",
        media: "application/vnd.openxmlformats-officedocument.presentationml.presentation",
    },
    FileType {
        ending: "odt",
        media: "application/vnd.oasis.opendocument.text",
    },
    FileType {
        ending: "ods",
        media: "application/vnd.oasis.opendocument.spreadsheet",
    },
    FileType {
        ending: "odp",
        media: "application/vnd.oasis.opendocument.presentation",
    },
    FileType {
        ending: "epub",
        media: "application/epub+zip",
    },
    FileType {
        ending: "zip",
        media: "application/zip",
    },
    FileType {
        ending: "gz",
        media: "application/gzip",
    },
    FileType {
        ending: "tgz",
        media: "application/gzip",
    },
    FileType {
        ending: "p7m",
        media: "application/pkcs7-mime",
    },
    FileType {
        ending: "p7s",
        media: "application/pkcs7-signature",
    },
    FileType {
        ending: "eml",
        media: "message/rfc822",
    },
    FileType {
        ending: "jpg",
        media: "image/jpeg",
    },
    FileType {
        ending: "jpeg",
        media: "image/jpeg",
    },
    FileType {
        ending: "png",
        media: "image/png",
    },
    FileType {
        ending: "gif",
        media: "image/gif",
    },
    FileType {
        ending: "svg",
        media: "image/svg+xml",
    },
    FileType {
        ending: "webp",
        media: "image/webp",
    },
    FileType {
        ending: "avif",
        media: "image/avif",
    },
    FileType {
        ending: "heic",
        media: "image/heic",
    },
    FileType {
        ending: "bmp",
        media: "image/bmp",
    },
    FileType {
        ending: "tif",
        media: "image/tiff",
    },
    FileType {
        ending: "tiff",
        media: "image/tiff",
    },
    FileType {
        ending: "mp3",
        media: "audio/mpeg",
    },
    FileType {
        ending: "m4a",
        media: "audio/mp4",
    },
    FileType {
        ending: "ogg",
        media: "audio/ogg",
    },
    FileType {
        ending: "flac",
        media: "audio/flac",
    },
    FileType {
        ending: "wav",
        media: "audio/vnd.wave",
    },
    FileType {
        ending: "mp4",
        media: "video/mp4",
    },
    FileType {
        ending: "mov",
        media: "video/quicktime",
    },
    FileType {
        ending: "mpg",
        media: "video/mpeg",
    },
    FileType {
        ending: "mpeg",
        media: "video/mpeg",
    },
];
